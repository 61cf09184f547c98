use mine_rows::and_count;

/// Two chunks of four words, and a word after them.
#[test]
fn shared_bits_are_counted_in_chunks_and_after_them(rt: HostRuntime) {
    let words = [5, 3, 0, u64::MAX, 1, 2, 4, 8, 16];
    let others = [6, 1, 7, u64::MAX, 1, 3, 4, 8, 48];
    let counts = [
        and_count(&words, &others),
        and_count(&words[8..], &others[8..]),
        and_count(&[], &[]),
    ];
    assert_eq!(rt; counts, [71, 1, 0]);
}
