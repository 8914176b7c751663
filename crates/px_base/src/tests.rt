use crate::{List, PlanError, SmallStr, boxed};
use std::test::Fail;

// With memory, each call that takes some gives its value.
#[test]
fn texts_lists_and_boxes_are_made_and_copied(rt: HostRuntime) -> Result<(), Fail> {
    let alloc = rt.alloc();
    let text = SmallStr::new(alloc, "total")?;
    assert_eq!(rt; text.try_clone(alloc)?.as_str(), "total");
    let mut texts = List::new(alloc);
    texts.try_push(text)?;
    texts.try_push(SmallStr::new(alloc, "")?)?;
    let copy = texts.try_clone(alloc)?;
    assert_eq!(rt; copy.len(), 2);
    assert!(rt; copy == texts);
    assert_eq!(rt; *boxed(alloc, 7u8)?.get(), 7);
    Ok(())
}

#[test]
fn errors_print_their_names(rt: HostRuntime) -> Result<(), Fail> {
    let alloc = rt.alloc();
    let cases = [
        (PlanError::ShapeMismatch, "ShapeMismatch"),
        (
            PlanError::ColumnNotFound(SmallStr::new(alloc, "a")?),
            "ColumnNotFound: a",
        ),
        (
            PlanError::Duplicate(SmallStr::new(alloc, "b c")?),
            "Duplicate: b c",
        ),
    ];
    for (error, text) in cases {
        assert_eq!(rt; error.to_string(alloc)?.as_str(), text);
    }
    Ok(())
}
