// Lines of a known text, and of it with a digit changed.
use super::line::{counted, said};
use super::{Counted, LineError, Record};

// 14 bytes for address 0x38: "Hello world.", a line feed and a zero.
const HELLO: &[u8] = b"S111003848656C6C6F20776F726C642E0A0042";

#[test]
fn data_is_said_with_its_bytes(rt: HostRuntime) {
    let Ok(Record::Data(address, bytes)) = said(HELLO) else {
        panic!(rt; "the line has data");
    };
    assert_eq!(rt; address, 0x38);
    assert_eq!(rt; bytes.len(), 14);
    for (k, byte) in b"Hello world.\n\0".iter().enumerate() {
        assert_eq!(rt; bytes.at(k), *byte as u32, "at {k}");
    }
}

#[test]
fn data_is_counted(rt: HostRuntime) {
    assert!(rt; matches!(counted(HELLO), Ok(Counted::Data(0x38, 14))));
}

#[test]
fn other_lines_are_said_and_counted_alike(rt: HostRuntime) {
    assert!(rt; matches!(said(b"S9030000FC"), Ok(Record::End(0))));
    assert!(rt; matches!(counted(b"S9030000FC"), Ok(Counted::End(0))));
    assert!(rt; matches!(said(b"S5030003F9"), Ok(Record::Skipped)));
    assert!(rt; matches!(counted(b"S5030003F9"), Ok(Counted::Skipped)));
    assert!(rt; matches!(said(b"S9030000FD"), Err(LineError::WrongSum)));
    assert!(rt; matches!(counted(b"S9030000FD"), Err(LineError::WrongSum)));
    assert!(rt; matches!(said(b"S4030000FC"), Err(LineError::Malformed)));
    assert!(rt; matches!(counted(b"S4030000FC"), Err(LineError::Malformed)));
}
