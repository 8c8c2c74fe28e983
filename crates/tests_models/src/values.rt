use bg_lists::Mem;
use bg_values::{Cause, NameTable, Refusal, Scope, number_at};

#[test]
fn a_name_is_added_once(rt: HostRuntime) -> Mem<()> {
    let mut names = NameTable::new(rt.alloc());
    assert!(rt; names.is_empty());
    assert!(rt; names.add(rt.alloc(), b"x", ())?);
    assert!(rt; names.add(rt.alloc(), b"y'", ())?);
    assert!(rt; !names.add(rt.alloc(), b"x", ())?);
    assert!(rt; names.len() == 2);
    assert!(rt; names.find(b"y'") == Some(1));
    Ok(())
}

#[test]
fn no_digits_spell_no_number(rt: HostRuntime) {
    let names = NameTable::new(rt.alloc());
    let scope = Scope {
        bytes: b"",
        tokens: &[],
        names: &names,
    };
    assert!(rt; number_at(&scope, 0) == Err(Refusal::new(Cause::Unexpected, 0)));
}
