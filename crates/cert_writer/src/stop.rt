//! Why a certificate is not written whole.

ghost use Rattle.std.specs.Prelude.{◌≡◌};

use report_sink::WriteFailed;
use thiserror::Error;

/// Why a certificate is not written whole.
#[derive(Clone, Copy, Debug, PartialEq, Eq, Error)]
pub enum CertStop {
    /// Memory was refused, and nothing is written.
    #[error("out of memory")]
    OutOfMemory,
    /// Memory was refused, and a first part of the text is written.
    #[error("out of memory in the middle")]
    CutShort,
    /// The sink has failed.
    #[error("write failed")]
    WriteFailed,
}

impl From<WriteFailed> for CertStop {
    ghost use Rattle.cert_writer.specs.declared.stop.CertStop.TheVariants.{WriteFailed};

    ghost from_gives = { λ _ stop. stop ≡ WriteFailed };

    fn from(_error: WriteFailed) -> CertStop {
        CertStop::WriteFailed
    }
}
