//! What the decoder's and the encoder's programs have in common: the words of the command line, and the exit status where
//! there are none.
#![tactic(auto)]

ghost use Rattle.std.specs.Prelude.{◌≡◌, ◌≢◌};
ghost use Rattle.apv_base.specs.model.Answer.{status_of};

use apv_base::{Exit, UsageKind};
use std::alloc::{Alloc, Global};
use std::env::{Env, args};
use std::io;
use std::io::{Eprint, ErrorKind};

/// The words of the command line after the program's name. The error `OutOfMemory` says that memory ran out, and any
/// other that a word isn't UTF-8.
pub fn words_of<R: Env + Alloc<A = Global>>(rt: &R) -> io::Result<Vec<String>> {
    let mut words = Vec::new(rt.alloc());
    for word in args(rt)?.skip(1) {
        words.push(word)?;
    }
    Ok(words)
}

/// The exit status of a program for which `words_of` returned an error of this kind: that of `Memory` where memory ran
/// out, and else that of `Usage`, after its line was written to standard error. A fault there changes no status.
pub fn status_without_words<R: Eprint>(rt: &R, kind: ErrorKind) -> u8
    ensures memory { kind ≡ ErrorKind.OutOfMemory → result ≡ status_of Exit.Memory }
    ensures usage { kind ≢ ErrorKind.OutOfMemory
        → result ≡ status_of (Exit.Usage UsageKind.Words) }
{
    if kind == ErrorKind::OutOfMemory {
        return Exit::Memory.status();
    }
    let _ = rt.eprint("usage: words\n");
    Exit::Usage(UsageKind::Words).status()
}
