// What is printed of the answers of `decode` and `decode_word`.
use frame::decode::{Ending, Report};
use std::fmt;
use word::locate::Answer;
use word::refusal::Refusal;

fn name_of(ending: Ending) -> &'static str {
    match ending {
        Ending::Clean => "clean",
        Ending::Repaired => "repaired",
        Ending::Stuck => "stuck",
        Ending::Spent => "spent",
    }
}

#[derive(Clone, Copy)]
pub struct Decoded(pub Result<Report, Refusal>);

impl fmt::Display for Decoded {
    fn fmt<W: fmt::Write>(&self, f: &mut fmt::Formatter<W>) -> fmt::Result {
        match self.0 {
            Ok(report) => {
                let ending = name_of(report.ending);
                write!(
                    f,
                    "{ending} {} {} {} {}",
                    report.passes, report.bits, report.rows, report.columns
                )
            }
            Err(Refusal::Erased) => f.write_str("erased 0 0 0 0"),
            Err(refusal) => write!(f, "refused {}", refusal.number()),
        }
    }
}

#[derive(Clone, Copy)]
pub struct Answered(pub Result<Answer, Refusal>);

impl fmt::Display for Answered {
    fn fmt<W: fmt::Write>(&self, f: &mut fmt::Formatter<W>) -> fmt::Result {
        match self.0 {
            Ok(Answer::Codeword) => f.write_str("codeword"),
            Ok(Answer::OnePlace(p)) => write!(f, "one place {p}"),
            Ok(Answer::TwoPlaces(p, q)) => write!(f, "two places {p} {q}"),
            Ok(Answer::Beyond) => f.write_str("beyond"),
            Err(refusal) => write!(f, "refused {}", refusal.number()),
        }
    }
}
