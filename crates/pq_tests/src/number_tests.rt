use pq_numbers::{from_zigzag, push_varint, take_varint, to_zigzag};
use std::alloc::{AllocError, Global};

// The number is written as the text, and read from it.
fn is_spelled(alloc: Global, number: u64, text: &[u8]) -> Result<bool, AllocError> {
    let mut out = Vec::new(alloc);
    push_varint(&mut out, number)?;
    match take_varint(text) {
        Some((read, rest)) => Ok(read == number && rest.is_empty() && out.as_slice() == text),
        None => Ok(false),
    }
}

// The examples of the Thrift compact protocol and of protocol buffers' varints.
#[test]
fn varints(rt: HostRuntime) -> Result<(), AllocError> {
    let cases: [(u64, &[u8]); 6] = [
        (0, &[0]),
        (1, &[1]),
        (127, &[127]),
        (150, &[0x96, 1]),
        (300, &[0xac, 2]),
        (u64::MAX, &[255, 255, 255, 255, 255, 255, 255, 255, 255, 1]),
    ];
    for (number, text) in &cases {
        let spelled = is_spelled(rt.alloc(), *number, text)?;
        assert!(rt; spelled, "at {number}");
    }
    Ok(())
}

#[test]
fn zigzags(rt: HostRuntime) {
    let cases: [(i64, u64); 6] = [
        (0, 0),
        (-1, 1),
        (1, 2),
        (-2, 3),
        (i64::MAX, u64::MAX - 1),
        (i64::MIN, u64::MAX),
    ];
    for (number, code) in &cases {
        assert!(rt;
            to_zigzag(*number) == *code && from_zigzag(*code) == *number,
            "at {number}"
        );
    }
}
