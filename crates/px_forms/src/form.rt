//! The forms of expressions, by the names of their keys.
ghost use Rattle.std.specs.Prelude.{◌≡◌};
ghost use Rattle.px_forms.specs.Names.{form_named};

/// What the one key of an expression says.
#[derive(Clone, Copy)]
pub enum Form {
    Column,
    Literal,
    Series,
    ListForm(ListForm),
}

/// The forms whose parts are a list.
#[derive(Clone, Copy)]
pub enum ListForm {
    Alias,
    Binary,
    Cast,
    When,
    Function,
}

#[tactic(auto, unfolding(crate::specs::Names::form_named))]
pub(crate) fn named(name: &str) -> Option<Form>
    ensures { result ≡ form_named name.now }
{
    if name == "col" {
        Some(Form::Column)
    } else if name == "lit" {
        Some(Form::Literal)
    } else if name == "series" {
        Some(Form::Series)
    } else if name == "alias" {
        Some(Form::ListForm(ListForm::Alias))
    } else if name == "binary" {
        Some(Form::ListForm(ListForm::Binary))
    } else if name == "cast" {
        Some(Form::ListForm(ListForm::Cast))
    } else if name == "when" {
        Some(Form::ListForm(ListForm::When))
    } else if name == "fn" {
        Some(Form::ListForm(ListForm::Function))
    } else {
        None
    }
}
