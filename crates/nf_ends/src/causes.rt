//! The ends that faults of a call's parts are. Want of memory is always `End::Mem`.

ghost use Rattle.std.specs.Prelude.{◌≡◌};
ghost use Rattle.nf_ends.specs.Causes.{end_of_usage, end_of_lex, end_of_parse, end_of_lower, end_of_params, end_of_host, end_of_publishing, end_of_copy};
ghost use Rattle.nf_ends.specs.declared.end.End.TheVariants as end;

use crate::end::End;
use nf_command::UsageFault;
use nf_host::{HostRefusal, SinkFailed};
use nf_kinds::Broken;
use nf_lexer::LexFault;
use nf_meaning::LowerFault;
use nf_params::ParamsFault;
use nf_parser::ParseFault;
use nf_publish::{CopyRefusal, PublishFault};
use nf_value::Mem;

impl From<Mem> for End {
    ghost from_gives = { λ _ e. e ≡ end.Mem };

    fn from(_error: Mem) -> End {
        End::Mem
    }
}

impl From<UsageFault> for End {
    ghost from_gives = { λ f e. e ≡ end_of_usage f };

    fn from(fault: UsageFault) -> End {
        match fault {
            UsageFault::Mem => End::Mem,
            fault => End::Usage(fault),
        }
    }
}

impl From<LexFault> for End {
    ghost from_gives = { λ f e. e ≡ end_of_lex f };

    fn from(fault: LexFault) -> End {
        match fault {
            LexFault::Mem => End::Mem,
            fault => End::Lex(fault),
        }
    }
}

impl From<ParseFault> for End {
    ghost from_gives = { λ f e. e ≡ end_of_parse f };

    fn from(fault: ParseFault) -> End {
        match fault {
            ParseFault::Mem => End::Mem,
            fault => End::Parse(fault),
        }
    }
}

impl From<Broken> for End {
    ghost from_gives = { λ b e. e ≡ end.Order b };

    fn from(broken: Broken) -> End {
        End::Order(broken)
    }
}

impl From<LowerFault> for End {
    ghost from_gives = { λ f e. e ≡ end_of_lower f };

    fn from(fault: LowerFault) -> End {
        match fault {
            LowerFault::Mem => End::Mem,
            fault => End::Lower(fault),
        }
    }
}

impl From<ParamsFault> for End {
    ghost from_gives = { λ f e. e ≡ end_of_params f };

    fn from(fault: ParamsFault) -> End {
        match fault {
            ParamsFault::BadParams { pointer } => End::BadParams { pointer },
            ParamsFault::Mem => End::Mem,
        }
    }
}

impl From<HostRefusal> for End {
    ghost from_gives = { λ f e. e ≡ end_of_host f };

    fn from(refusal: HostRefusal) -> End {
        match refusal {
            HostRefusal::Failed => End::HostFault,
            HostRefusal::Mem => End::Mem,
        }
    }
}

impl From<PublishFault> for End {
    ghost from_gives = { λ f e. e ≡ end_of_publishing f };

    fn from(fault: PublishFault) -> End {
        match fault {
            PublishFault::Clash(clash) => End::PublishClash(clash),
            PublishFault::Mem => End::Mem,
        }
    }
}

impl From<CopyRefusal> for End {
    ghost from_gives = { λ f e. e ≡ end_of_copy f };

    fn from(refusal: CopyRefusal) -> End {
        match refusal {
            CopyRefusal::Host(refusal) => End::from(refusal),
            CopyRefusal::Damaged { due, found } => End::Damaged { due, found },
        }
    }
}

impl From<SinkFailed> for End {
    ghost from_gives = { λ _ e. e ≡ end.SinkFault };

    fn from(_error: SinkFailed) -> End {
        End::SinkFault
    }
}
