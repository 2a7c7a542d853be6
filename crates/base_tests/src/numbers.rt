// Decimal texts.
use lama_num::read_decimal;

const LARGEST: Option<u64> = Some(u64::MAX);

fn is_read(text: &[u8], want: Option<u64>) -> bool {
    read_decimal(text) == want
}

#[test]
fn decimals(rt: HostRuntime) {
    assert!(rt; is_read(b"0042", Some(42)));
    assert!(rt; is_read(b"18446744073709551615", LARGEST));
    assert!(rt; is_read(b"18446744073709551616", None));
    assert!(rt; is_read(b"", None) && is_read(b"12a", None) && is_read(b"-1", None));
}
