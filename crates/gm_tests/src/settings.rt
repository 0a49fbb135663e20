//! Settings that are refused, and by which number.

use crate::checks::same;
use gm_notes::Config;
use std::alloc::{AllocError, Global};
use std::test::Fail;

/// The number of the refusal of these settings, if they are refused.
fn refusal(
    alloc: Global,
    name: &[u8],
    first: u64,
    slots: u32,
    functions: u32,
) -> Result<Option<u8>, AllocError> {
    match Config::new(Vec::from_slice(alloc, name)?, first, slots, functions) {
        Ok(_) => Ok(None),
        Err(error) => Ok(Some(error.number())),
    }
}

static SETTINGS: [(&[u8], u64, u32, u32, Option<u8>); 8] = [
    (b"a:b", 0, 1025, 65537, Some(17)),
    (b"", 0, 1025, 65537, Some(17)),
    (b"gmd", 0, 1025, 65537, Some(18)),
    (b"gmd", 1, 1025, 65537, Some(19)),
    (b"gmd", 1, 0, 65537, Some(19)),
    (b"gmd", 1, 1024, 65537, Some(20)),
    (b"gmd", 1, 1024, 0, Some(20)),
    (b"gmd", 1, 1024, 65536, None),
];

#[test]
fn settings_are_refused_in_their_order(rt: HostRuntime) -> Result<(), Fail> {
    for (name, first, slots, functions, wanted) in &SETTINGS {
        let got = refusal(rt.alloc(), name, *first, *slots, *functions)?;
        same(&rt, *name, &got, wanted);
    }
    Ok(())
}
