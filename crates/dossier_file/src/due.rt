// Which texts the accepted cuts of a script publish.
ghost use Rattle.std.specs.Prelude.{◌≡◌, ◌<◌, ◌≤◌, ◌+◌, ◌++◌, IfOk, OnOk};
ghost use Rattle.dossier_file.specs.Due.{cuts_accepted, due, is_cut_by, published_by};

use office_asks::{Ask, By, Request};
use office_base::{Listed, OutOfMemory, ProgId};
use std::alloc::Global;

/// A text that is due.
#[derive(Clone, Copy, PartialEq, Eq)]
pub enum Due {
    /// The text of the round of this number, from 1.
    Round { number: u16 },
    /// The list of a programme in the round of this number.
    List { number: u16, prog: ProgId },
    /// The final admissions.
    Final,
}

/// Whether the clerk cuts this window.
fn is_cut_by(request: &Request, now: u16) -> bool
    ensures { result ≡ is_cut_by now request.now.by request.now.ask }
{
    match (request.by, request.ask) {
        (By::Clerk, Ask::Cut { window }) => window == now,
        _ => false,
    }
}

/// How many cuts of a script are accepted.
pub(crate) fn accepted_cuts(rounds: u16, script: &[Request]) -> u16
    requires { rounds ≤ 10 }
    ensures value { result ≡ cuts_accepted rounds 0 script.now }
    ensures within { result ≤ rounds + 1 }
{
    let mut now: u16 = 0;
    for request in script {
        if is_cut_by(request, now) && now <= rounds {
            now += 1;
        }
    }
    now
}

/// Puts what the cut of a window publishes after the others.
fn push_published(
    dues: &mut Listed<Due>,
    rounds: u16,
    programmes: u16,
    window: u16,
) -> Result<(), OutOfMemory>
    requires { window ≤ 10 }
    ensures { OnOk result (dues.new ≡ dues.old ++ published_by rounds programmes window) }
{
    if window == rounds {
        return dues.push(Due::Final);
    }
    let number = window + 1;
    dues.push(Due::Round { number })?;
    for prog in 0..programmes {
        dues.push(Due::List {
            number,
            prog: ProgId(prog),
        })?;
    }
    Ok(())
}

/// The texts that so many accepted cuts publish, in their order.
pub(crate) fn due_texts(
    alloc: Global,
    rounds: u16,
    programmes: u16,
    cuts: u16,
) -> Result<Listed<Due>, OutOfMemory>
    requires { cuts ≤ 11 }
    ensures { IfOk result (λ dues. dues ≡ due rounds programmes cuts) }
{
    let mut dues = Listed::new(alloc);
    for window in 0..cuts {
        push_published(&mut dues, rounds, programmes, window)?;
    }
    Ok(dues)
}
