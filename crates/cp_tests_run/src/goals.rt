use cp_goal::{Binary, Fault, Unary};

#[test]
fn operations_have_exact_values_or_faults(rt: HostRuntime) {
    let min = i64::MIN;
    assert_eq!(rt; Binary::Divide.value(7, -2), Ok(-3));
    assert_eq!(rt; Binary::Divide.value(min, -1), Err(Fault::IntOverflow));
    assert_eq!(rt; Binary::Divide.value(1, 0), Err(Fault::ZeroDivisor));
    assert_eq!(rt; Binary::Rem.value(-7, 2), Ok(-1));
    assert_eq!(rt; Binary::Rem.value(min, -1), Ok(0));
    assert_eq!(rt; Binary::Mod.value(-7, 2), Ok(1));
    assert_eq!(rt; Binary::Mod.value(7, -2), Ok(-1));
    assert_eq!(rt; Binary::ShiftLeft.value(1, 63), Err(Fault::IntOverflow));
    assert_eq!(rt; Binary::ShiftLeft.value(-1, 63), Ok(min));
    assert_eq!(rt; Binary::ShiftLeft.value(5, 64), Err(Fault::Shift(64)));
    assert_eq!(rt; Binary::ShiftRight.value(-1, 63), Ok(-1));
    assert_eq!(rt; Binary::Multiply.value(min, -1), Err(Fault::IntOverflow));
    assert_eq!(rt; Unary::Minus.value(min), Err(Fault::IntOverflow));
    assert_eq!(rt; Unary::Abs.value(-5), Ok(5));
}
