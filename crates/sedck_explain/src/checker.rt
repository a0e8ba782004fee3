//! Which checker stands beside this program: the sum of its bytes, to compare with the one that came with it.

use sedck_cert::streams::{Failed, Sink, write_all};
use sha2::{Digest, Sha256};
use std::alloc::{AllocError, AllocGlobal};
use std::fs::Files;
use std::io::Read;
use std::{env, fs, io};

/// The checker's name, in the folder of this program.
const CHECKER: &str = "sedck";
/// How many bytes are read at a time.
const BLOCK: usize = 4096;
/// How many times: a longer file is no checker.
const BLOCKS: usize = 65_536;

const DIGITS: &[u8; 16] = b"0123456789abcdef";

/// Writes the SHA-256 sum and the name of the checker beside this program, as `sha256sum` does, and nothing where there is none.
pub(crate) fn write_checker<R: Files + AllocGlobal, W: Sink>(
    rt: &R,
    out: &mut W,
) -> Result<(), Failed> {
    let Ok(Some(path)) = checker_path(rt) else {
        return Ok(());
    };
    match sum_of(rt, path.as_str()) {
        Ok(Some(sum)) => write_sum(&sum, out),
        _ => Ok(()),
    }
}

/// The path of a file with the checker's name in the folder of this program, if the system says where this program is.
fn checker_path<R: Files + AllocGlobal>(rt: &R) -> Result<Option<String>, AllocError> {
    let Ok(own) = env::current_exe(rt) else {
        return Ok(None);
    };
    let Some(end) = own.as_str().rfind('/') else {
        return Ok(None);
    };
    let mut path = String::new(rt.alloc());
    path.push_str(&own.as_str()[..end])?;
    path.push('/')?;
    path.push_str(CHECKER)?;
    Ok(Some(path))
}

/// The SHA-256 sum of a file, if it is no longer than a checker may be.
fn sum_of<R: Files>(files: &R, path: &str) -> io::Result<Option<[u8; 32]>> {
    let mut file = fs::open(files, path)?;
    let mut hasher = Sha256::new();
    let mut block = [0u8; BLOCK];
    for _ in 0..BLOCKS {
        let count = file.read(&mut block)?;
        if count == 0 {
            return Ok(Some(hasher.finalize()));
        }
        hasher.update(&block[..count]);
    }
    Ok(None)
}

/// Writes the sum in hexadecimal digits, two blanks and the name.
fn write_sum<W: Sink>(sum: &[u8; 32], out: &mut W) -> Result<(), Failed> {
    for byte in sum {
        let digits = [DIGITS[(*byte >> 4) as usize], DIGITS[(*byte & 15) as usize]];
        write_all(out, &digits)?;
    }
    write_all(out, b"  ")?;
    write_all(out, CHECKER.as_bytes())?;
    write_all(out, b"\n")
}
