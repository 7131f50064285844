use crate::{packets_taken, word_of};
use std::test::Fail;
use wire::{Packet, Reader, write_packet};

// Check words of known texts. The first is the algorithm's usual example, the last stands in the tests of Python's
// library; that of "A" was quoted from memory. All agree with Python's own function.
const WORDS: [(&[u8], u16); 4] = [
    (b"123456789", 0x31C3),
    (b"", 0),
    (b"A", 0x58E5),
    (b"Test the CRC-32 of this string.", 14290),
];

// Check words modulo 16,384: slots of keys as a key-value store's manual gives them, quoted from memory; they too agree
// with Python's own function.
const SLOTS: [(&[u8], u16); 5] = [
    (b"foo", 12182),
    (b"bar", 5061),
    (b"hello", 866),
    (b"somekey", 11058),
    (b"hash_tag", 2515),
];

#[test]
fn known_check_words(rt: HostRuntime) {
    for (text, word) in WORDS {
        assert_eq!(rt; word_of(text), word);
    }
    for (key, slot) in SLOTS {
        assert_eq!(rt; word_of(key) % 16384, slot);
    }
}

// The worked packet of docs/line.md: number 2Ah, address 1, message 0Eh 01h 05h.
#[test]
fn worked_packet(rt: HostRuntime) -> Result<(), Fail> {
    let mut out = [0xEE; 20];
    assert_eq!(rt; write_packet(&mut out, 0x2A, 1, b"\x0E\x01\x05"), Some(17));
    assert!(rt; &out[0..17] == b"\x012A01\x020E0105749C\x03".as_slice());
    assert!(rt; &out[17..20] == b"\xEE\xEE\xEE".as_slice());
    match Packet::read(b"\x012A01\x020E0105749C\x03") {
        Some(packet) => {
            assert_eq!(rt; packet.number, 0x2A);
            assert_eq!(rt; packet.address, 1);
            assert!(rt; packet.message() == b"\x0E\x01\x05".as_slice());
            Ok(())
        }
        None => Err(Fail::new("not read")),
    }
}

// What holds a packet is copied like a number.
#[derive(Clone, Copy)]
struct Received {
    packet: Packet,
    at: u8,
}

fn number(received: Received) -> u8 {
    received.packet.number
}

#[test]
fn copied_packet(rt: HostRuntime) -> Result<(), Fail> {
    match Packet::read(b"\x012A01\x020E0105749C\x03") {
        Some(packet) => {
            let received = Received { packet, at: 7 };
            assert_eq!(rt; number(received), 0x2A);
            assert_eq!(rt; number(received), 0x2A);
            assert_eq!(rt; received.at, 7);
            Ok(())
        }
        None => Err(Fail::new("not read")),
    }
}

#[test]
fn nothing_to_write(rt: HostRuntime) {
    let mut out = [0xEE; 16];
    assert_eq!(rt; write_packet(&mut out, 0x2A, 1, b"\x0E\x01\x05"), None);
    assert_eq!(rt; write_packet(&mut out, 0x2A, 1, b""), None);
    assert_eq!(rt; write_packet(&mut [0; 1549], 0x2A, 1, &[0; 769]), None);
    assert_eq!(rt;
        write_packet(&mut [0; 1547], 0x2A, 1, &[0; 768]),
        Some(1547)
    );
    assert!(rt; out == [0xEE; 16]);
}

// Lines, and how many whole packets each brings. Those that bring none have their right check word, but for the last two.
const LINES: [(&[u8], usize); 10] = [
    (b"\x012A01\x02050ABD\x03", 1),
    (b"noise\x03\x01noise\x012A01\x02050ABD\x03", 1),
    (b"\x012A01\x02050ABD\x03\x03\x012A01\x020E0105749C\x03", 2),
    (b"\x012a01\x02053FB5\x03", 0),
    (b"\x012A01\x0405B81D\x03", 0),
    (b"\x012A01\x02C6A6\x03", 0),
    (b"\x012A01\x020502A19\x03", 0),
    (b"\x012A01\x020G5468\x03", 0),
    (b"\x012A01\x02050ABE\x03", 0),
    (b"\x012A01\x02050ABD", 0),
];

#[test]
fn lines(rt: HostRuntime) {
    for (line, packets) in LINES {
        assert_eq!(rt; packets_taken(line), packets);
    }
}

// The longest packet is taken; one byte more brings the reader to rest, and SOH starts it afresh.
#[test]
fn longest(rt: HostRuntime) {
    let mut reader = Reader::new();
    let mut out = [b'0'; 1549];
    assert_eq!(rt; write_packet(&mut out, 0, 0xFF, &[0; 768]), Some(1547));
    assert!(rt; &out[1542..1547] == b"DBA3\x03".as_slice());
    assert_eq!(rt; packets_taken(&out[0..1547]), 1);
    for byte in &out[0..1546] {
        assert!(rt; reader.feed(*byte).is_none());
    }
    assert!(rt; reader.feed(b'0').is_none());
    assert!(rt; reader.feed(3).is_none());
    for byte in b"\x012A01\x02050ABD" {
        assert!(rt; reader.feed(*byte).is_none());
    }
    assert!(rt; reader.feed(3).is_some());
}
