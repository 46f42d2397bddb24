use cp_char::{is_alphanumeric, is_layout, is_symbol};

/// Characters, each with whether it is alphanumeric, layout, a symbol character.
const CLASSES: [(u8, bool, bool, bool); 7] = [
    (b'a', true, false, false),
    (b'_', true, false, false),
    (b'\n', false, true, false),
    (b'\\', false, false, true),
    (b'.', false, false, true),
    (b'!', false, false, false),
    (0xe9, false, false, false),
];

#[test]
fn characters_are_of_these_classes(rt: HostRuntime) {
    for (byte, alphanumeric, layout, symbol) in CLASSES.iter() {
        assert_eq!(rt; is_alphanumeric(*byte), *alphanumeric, "{byte}");
        assert_eq!(rt; is_layout(*byte), *layout, "{byte}");
        assert_eq!(rt; is_symbol(*byte), *symbol, "{byte}");
    }
}
