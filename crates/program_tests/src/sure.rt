//! Runs over files that never fail by a device: only memory can keep a run from what is defined for the files.
ghost use Rattle.apv_files.specs.SlotView.{AllClosed};
ghost use Rattle.apv_files.specs.Sure.{sure_held, sure_view};
ghost use Rattle.apv_dec.specs.Settings.{WithSettings as WithDecSettings};
ghost use Rattle.apv_enc.specs.Run.{WithSettings as WithEncSettings};
ghost use Rattle.program_tests.specs.Surely.{DecodesSurely, EncodesSurely, NeverFails};

use apv_base::Exit;
use apv_dec::run_dec;
use apv_enc::run_enc;
use apv_files::SureFiles;
use apv_words::laws::{one_answer, one_answer_enc};
use apv_workers::NoGate;
use std::alloc::Global;
use std::thread::Threads;

/// Runs the decoder over files that never fail by a device.
pub fn decode_surely<R: Threads + Sync>(
    alloc: Global,
    rt: &R,
    words: &[String],
    files: &mut SureFiles,
) -> Exit
    requires closed { AllClosed (sure_view files.old) }

    // Whatever the words, the answer isn't `OpenFailed`, `ReadFailed` or `WriteFailed`.
    ensures sure { NeverFails result }

    // The answer and the outputs are those that are defined for the content of the input, unless memory runs out.
    ensures decodes { WithDecSettings words.now (λ settings.
        DecodesSurely settings (sure_held files.old) result (sure_view files.new)) }
{
    one_answer();
    run_dec(alloc, rt, words, files, &NoGate)
}

/// Runs the encoder over files that never fail by a device.
pub fn encode_surely<R: Threads + Sync>(
    alloc: Global,
    rt: &R,
    words: &[String],
    files: &mut SureFiles,
) -> Exit
    requires closed { AllClosed (sure_view files.old) }

    // Whatever the words, the answer isn't `OpenFailed`, `ReadFailed` or `WriteFailed`.
    ensures sure { NeverFails result }

    // The answer and the outputs are those that are defined for the files that are read, unless memory runs out.
    ensures encodes { WithEncSettings words.now (λ settings.
        EncodesSurely settings (sure_held files.old) result (sure_view files.new)) }
{
    one_answer_enc();
    run_enc(alloc, rt, words, files, &NoGate)
}

#[cfg(test)]
mod tests {
    use super::*;
    use crate::runs::{GREY, samples, words_of};
    use crate::units::GREY_UNIT;
    use apv_base::Slot;
    use std::test::Fail;

    #[test]
    fn decodes_a_grey_frame(rt: HostRuntime) -> Result<(), Fail> {
        let words = words_of(rt.alloc(), &[&["--input=in", "--output=out"]])?;
        let mut files = SureFiles::new(rt.alloc());
        files.hold("in", GREY_UNIT)?;
        assert_eq!(rt;
            decode_surely(rt.alloc(), &rt, &words, &mut files),
            Exit::Done
        );
        let picture = samples(rt.alloc(), &[(256, 512)])?;
        assert_eq!(rt; files.written(Slot::Output), picture.as_slice());
        Ok(())
    }

    #[test]
    fn encodes_a_grey_picture(rt: HostRuntime) -> Result<(), Fail> {
        let words = words_of(rt.alloc(), &[GREY, &["--qp=0"]])?;
        let mut files = SureFiles::new(rt.alloc());
        files.hold("in", &samples(rt.alloc(), &[(256, 512)])?)?;
        assert_eq!(rt;
            encode_surely(rt.alloc(), &rt, &words, &mut files),
            Exit::Done
        );
        assert_eq!(rt; files.written(Slot::Output), GREY_UNIT);
        Ok(())
    }
}
