//! Why a call on an image is refused.

use sim_base::RunError;
use sim_ports::{Failed, WriteFailed};
use text_objects::TextFault;
use thiserror::Error;

/// Why a call on an image is refused.
#[derive(Clone, Copy, Debug, PartialEq, Eq, Drop, Error)]
pub enum IoFault {
    /// A run-time error.
    #[error("{0}")]
    Run(RunError),
    /// The input has failed.
    #[error("input fault")]
    InputFault,
    /// The output has failed.
    #[error("output fault")]
    WriteFault,
}

impl From<RunError> for IoFault {
    ghost use Rattle.std.specs.Prelude.{◌≡◌};
    ghost use Rattle.basic_io.specs.declared.fault.IoFault.TheVariants.{Run};

    ghost from_gives = { λ error fault. fault ≡ Run error };

    fn from(error: RunError) -> IoFault {
        IoFault::Run(error)
    }
}

impl From<Failed> for IoFault {
    ghost use Rattle.std.specs.Prelude.{◌≡◌};
    ghost use Rattle.basic_io.specs.declared.fault.IoFault.TheVariants.{InputFault};

    ghost from_gives = { λ _ fault. fault ≡ InputFault };

    fn from(_: Failed) -> IoFault {
        IoFault::InputFault
    }
}

impl From<WriteFailed> for IoFault {
    ghost use Rattle.std.specs.Prelude.{◌≡◌};
    ghost use Rattle.basic_io.specs.declared.fault.IoFault.TheVariants.{WriteFault};

    ghost from_gives = { λ _ fault. fault ≡ WriteFault };

    fn from(_: WriteFailed) -> IoFault {
        IoFault::WriteFault
    }
}

/// Why `intext` gave no text.
#[derive(Clone, Copy, Debug, PartialEq, Eq, Drop, Error)]
pub enum IntextFault {
    /// No text was made, and nothing has changed.
    #[error("{0}")]
    NoText(TextFault),
    /// A text was made, and not all of its characters could be read.
    #[error("{0}")]
    NotRead(IoFault),
}

impl From<TextFault> for IntextFault {
    ghost use Rattle.std.specs.Prelude.{◌≡◌};
    ghost use Rattle.basic_io.specs.declared.fault.IntextFault.TheVariants.{NoText};

    ghost from_gives = { λ text fault. fault ≡ NoText text };

    fn from(text: TextFault) -> IntextFault {
        IntextFault::NoText(text)
    }
}

impl From<IoFault> for IntextFault {
    ghost use Rattle.std.specs.Prelude.{◌≡◌};
    ghost use Rattle.basic_io.specs.declared.fault.IntextFault.TheVariants.{NotRead};

    ghost from_gives = { λ io fault. fault ≡ NotRead io };

    fn from(io: IoFault) -> IntextFault {
        IntextFault::NotRead(io)
    }
}
