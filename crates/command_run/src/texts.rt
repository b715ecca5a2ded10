//! The texts of statuses.
ghost use Rattle.std.specs.Prelude.{Some};
ghost use Rattle.value_texts.specs.Texts.{addr_text};
ghost use Rattle.command_run.specs.StatusTexts.{fault_text, status_text};

use crate::status::Status;
use rsvp_base::{Addr, EndName};
use script_grammar::Fault;
use std::fmt;

impl fmt::Display for Status {
    ghost output = { λ s. Some (status_text s) };

    fn fmt<W: fmt::Write>(&self, f: &mut fmt::Formatter<W>) -> fmt::Result {
        match self {
            Status::Done => Ok(()),
            Status::Usage => write!(
                f,
                "usage: rsvpd replay|demand|show|grow|node|police [--seed N]"
            ),
            Status::BadLine { line, why } => {
                let why = Reason(why);
                write!(f, "line {line}: {why}")
            }
            Status::ReadFault => write!(f, "read fault"),
            Status::WriteFault => write!(f, "write fault"),
            Status::NoMemory => write!(f, "no memory"),
            Status::Crowded => write!(f, "crowded"),
            Status::TooLong => write!(f, "too long"),
        }
    }
}

// A fault, as the reason of a bad line.
#[derive(Clone, Copy)]
struct Reason<'a>(&'a Fault);

impl<'a> fmt::Display for Reason<'a> {
    ghost output = { λ t. Some (fault_text t.0.now) };

    fn fmt<W: fmt::Write>(&self, f: &mut fmt::Formatter<W>) -> fmt::Result {
        match self.0 {
            Fault::Word => write!(f, "word"),
            Fault::Late => write!(f, "late"),
            Fault::Range => write!(f, "range"),
            Fault::Name => write!(f, "name"),
            Fault::Twice => write!(f, "twice"),
            Fault::Style => write!(f, "style"),
            Fault::Limit => write!(f, "limit"),
            Fault::NotTree => write!(f, "nottree"),
            Fault::Over(_) => write!(f, "over"),
            Fault::Loop { group, from, to } => {
                let group = Dotted(*group);
                let from = Named(from);
                let to = Named(to);
                write!(f, "loop in {group} through {from}>{to}")
            }
        }
    }
}

// An address, as `10.0.1.2`.
#[derive(Clone, Copy)]
struct Dotted(Addr);

impl fmt::Display for Dotted {
    ghost output = { λ d. Some (addr_text d.0) };

    fn fmt<W: fmt::Write>(&self, f: &mut fmt::Formatter<W>) -> fmt::Result {
        let n = self.0.0;
        let (a, b) = (n / 16_777_216, n / 65536 % 256);
        let (c, d) = (n / 256 % 256, n % 256);
        write!(f, "{a}.{b}.{c}.{d}")
    }
}

// The name of an end.
#[derive(Clone, Copy)]
struct Named<'a>(&'a EndName);

impl<'a> fmt::Display for Named<'a> {
    ghost output = { λ n. Some n.0.now };

    fn fmt<W: fmt::Write>(&self, f: &mut fmt::Formatter<W>) -> fmt::Result {
        // A name has ASCII characters alone.
        let name = str::from_utf8(self.0.bytes()).map_err(|_| fmt::Error)?;
        write!(f, "{name}")
    }
}
