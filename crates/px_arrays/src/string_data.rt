//! Strings that lie one after the other in one buffer.
ghost use Rattle.std.specs.Prelude.{◌≡◌, ◌<◌, ◌++◌, [], ◌∷◌, length, get_or, OnOk, OnErr};
ghost use Rattle.px_base.specs.Answer.{GivesOrMemory};

use px_types::PlanError;
use std::alloc::Global;
use std::marker::Model;

/// String i ends at `ends[i]`. It starts where the one before ends, and the first at 0.
#[derive(Drop)]
pub struct StringData {
    text: String,
    ends: Vec<usize>,
}

impl Model for StringData {
    ghost use Rattle.std.specs.Prelude.{ℕ, List, string_bytes};
    ghost use Rattle.px_arrays.specs.StringArrayOf.{strings_in, AreEnds};

    ghost Value = { List (List ℕ) };

    ghost view = { λ b. strings_in (string_bytes b.text) 0 b.ends.items };

    ghost invariant = { λ b. AreEnds (string_bytes b.text) 0 b.ends.items };
}

/// Where string `i` starts.
fn start_of(ends: &[usize], i: usize) -> usize
    requires { i < length ends.now }
    ensures { result ≡ get_or (0 ∷ ends.now) i 0 }
{
    if i == 0 { 0 } else { ends[i - 1] }
}

impl StringData {
    /// No strings, with room for where `capacity` strings end.
    pub fn with_capacity(alloc: Global, capacity: usize) -> Result<StringData, PlanError>
        ensures { GivesOrMemory result [] }
    {
        let text = String::new(alloc);
        let ends = Vec::with_capacity(alloc, capacity)?;
        Ok(StringData { text, ends })
    }

    /// One string more, after the others. After an error the strings are as before.
    pub fn push(&mut self, text: &str) -> Result<(), PlanError>
        ensures ok { OnOk result (self.new ≡ self.old ++ text.now ∷ []) }
        ensures err { OnErr result ((self.new ≡ self.old) × (result ≡ Err PlanError.OutOfMemory)) }
    {
        self.ends.try_reserve(1)?;
        self.text.push_str(text)?;
        self.ends.push(self.text.as_str().len())?;
        Ok(())
    }

    /// String `i`, which is below the number of strings.
    pub fn get(&self, i: usize) -> &str
        requires { i < length self.now }
        ensures { result.now ≡ get_or self.now i [] }
    {
        let start = start_of(self.ends.as_slice(), i);
        let end = self.ends[i];
        &self.text.as_str()[start..end]
    }

    /// The same strings.
    pub fn try_clone(&self, alloc: Global) -> Result<StringData, PlanError>
        ensures { GivesOrMemory result self.now }
    {
        let text = String::from_str(alloc, self.text.as_str())?;
        let ends = Vec::from_slice(alloc, self.ends.as_slice())?;
        Ok(StringData { text, ends })
    }
}
