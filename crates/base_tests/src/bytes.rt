use cross_sum::{Bytes, Part};
use lists::{Copied, NoMemory};

/// Whether bytes are 1, 2 and 3, and three zeros are others.
fn is_lent(bytes: &Bytes, zeros: &Bytes) -> bool {
    bytes.len() == 3
        && bytes.as_slice() == [1, 2, 3].as_slice()
        && bytes.tail(1) == [2, 3].as_slice()
        && zeros.as_slice() == [0, 0, 0].as_slice()
        && !zeros.same(bytes)
}

#[test]
fn bytes_are_lent_and_copied(rt: HostRuntime) -> Result<(), NoMemory> {
    let bytes = Bytes::of(rt.alloc(), &[1, 2, 3])?.copy()?;
    let zeros = Bytes::zeros(rt.alloc(), 3)?;
    let is_lent = is_lent(&bytes, &zeros);
    let part = Part { number: 2, bytes }.copy()?;
    let is_part = part.number == 2 && part.bytes.as_slice() == [1, 2, 3].as_slice();
    assert!(rt; is_lent && is_part);
    Ok(())
}
