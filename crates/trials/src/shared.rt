//! What several trials use: a ring against the records that it should hold.
use ring::Ring;
use std::fmt::Debug;
use std::process::Abort;

/// The ring holds these records, newest first, and none beyond. A ring has no iterator:
/// one would be a type with its proofs, for two callers.
pub fn holds<T: Copy + PartialEq + Debug>(rt: &impl Abort, ring: &Ring<'_, T>, newest_first: &[T]) {
    assert_eq!(rt; ring.len(), newest_first.len());
    for (age, record) in newest_first.iter().enumerate() {
        assert_eq!(rt; ring.get(age), Some(*record));
    }
    assert_eq!(rt; ring.get(newest_first.len()), None);
    assert_eq!(rt; ring.get(usize::MAX), None);
}
