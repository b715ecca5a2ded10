//! Flows: their form and their range.
ghost use Rattle.std.specs.Prelude.{◌≡◌, ◌↔◌, IsSome, IfSome};
ghost use Rattle.rsvp_base.specs.Rates.{IsRate};
ghost use Rattle.script_words.specs.Flows.{flow_of, peak_of, IsFlow, IsPeak, flow_value, peak_value};

use crate::numbers::number;
use crate::parts::five_parts;
use crate::raw::FlowWord;
use rsvp_base::{Flow, Peak, Rate};

impl FlowWord {
    /// The numbers of a flow word; None where it is not `r/b/p/m/M`, with p a number or `inf`.
    #[tactic(auto, unfolding(crate::specs::Flows::flow_of))]
    pub fn of(word: &[u8]) -> Option<FlowWord>
        ensures { result ≡ flow_of word.now }
    {
        let (r, b, p, low, most) = five_parts(word, b'/')?;
        Some(FlowWord {
            r: number(r)?,
            b: number(b)?,
            p: peak(p)?,
            low: number(low)?,
            most: number(most)?,
        })
    }

    /// The flow of these numbers; None exactly where r, b or p is no rate, r, b or m is 0, m is above M, or M is above
    /// 2^32 - 1.
    pub fn flow(&self) -> Option<Flow>
        ensures some { IsSome result ↔ IsFlow self.now }
        ensures value { IfSome result (λ flow. flow ≡ flow_value self.now) }
    {
        let low = u32::try_from(self.low).ok()?;
        let most = u32::try_from(self.most).ok()?;
        if low > most {
            return None;
        }
        Flow::new(rate(self.r)?, rate(self.b)?, peak_rate(self.p)?, low, most)
    }
}

fn rate(n: u128) -> Option<Rate>
    ensures some { IsSome result ↔ IsRate n }
    ensures value { IfSome result (λ rate. rate ≡ n) }
{
    Rate::of(u64::try_from(n).ok()?)
}

fn peak_rate(p: Option<u128>) -> Option<Peak>
    ensures some { IsSome result ↔ IsPeak p }
    ensures value { IfSome result (λ peak. peak ≡ peak_value p) }
{
    match p {
        None => Some(Peak::Infinite),
        Some(n) => Some(Peak::Finite(rate(n)?)),
    }
}

// A peak rate, None for `inf`.
fn peak(word: &[u8]) -> Option<Option<u128>>
    ensures { result ≡ peak_of word.now }
{
    match word {
        b"inf" => Some(None),
        _ => Some(Some(number(word)?)),
    }
}
