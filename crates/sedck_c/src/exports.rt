//! The functions that C calls, by their names there.

ghost use Rattle.std.specs.Prelude.{◌≡◌, ◌≢◌, ◌⊎◌, ◌↔◌, ◌≤◌};
ghost use Rattle.sedck_script.specs.Program.{Program};
ghost use Rattle.sedck_script.specs.Spelling.{Spells};
ghost use Rattle.sedck_engines.specs.declared.answer.Outcome.TheVariants.{Yes, No};
ghost use Rattle.sedck_cert.specs.Certificate.{Certificate};
ghost use Rattle.sedck_cert.specs.Versions.{SpellsCertificate};
ghost use Rattle.sedck_cert.specs.Ranked.{Accepts};
ghost use Rattle.sedck_cert.specs.Headline.{SpellBoth, ReadBoth, IsSafe};
ghost use Rattle.sedck_cert.specs.Everywhere.{IsSafeEverywhere};
ghost use Rattle.sedck_engines.specs.Engines.{RanksTo};
ghost use Rattle.sedck_c.specs.Answers.{HasOne, HasNone, IsTold, IsLimited, IsNeeded, IsNeededToRank, IsTooSmall, TellsFaultOf, TellsScriptFaultOf, TellsReason, Gives};

use crate::answer::Answer;
use crate::certified::{certify, ranked};
use crate::room::{put_lists, put_with};
use crate::statuses::{ACCEPTED, MEMORY, REFUSED, REJECTED, fault_status, verdict_status};
use sedck_cert::{Fault, judge};
use sedck_engines::{Outcome, RunFault};
use std::alloc::Global;

/// Judges a certificate for a script, as `sedck check` does. It keeps nothing of either text.
#[unsafe(no_mangle)]
pub extern "C" fn sedck_check(
    alloc: Global,
    script: &[u8],
    certificate: &[u8],
    answer: &mut Answer,
) -> u32
    ensures promise { result ≡ 0 → ReadBoth script.now certificate.now IsSafe }
    ensures everywhere { result ≡ 0 → ReadBoth script.now certificate.now IsSafeEverywhere }
    ensures within { (result ≤ 2) ⊎ (result ≡ 4) }
    // Each status exactly where it is due, unless memory runs out.
    ensures accepted { result ≢ 4 → (result ≡ 0) ↔ SpellBoth script.now certificate.now Accepts }
    ensures rejected { result ≢ 4 → (result ≡ 1) ↔ SpellBoth script.now certificate.now (λ p c. ¬ Accepts p c) }
    ensures refused { result ≡ 2 → ((p : Program) → ¬ Spells script.now p)
        ⊎ (((p : Program) × Spells script.now p) × ((c : Certificate) → ¬ SpellsCertificate certificate.now c)) }
    // What the answer tells at each of them.
    ensures limited { result ≡ 0 → SpellBoth script.now certificate.now (IsLimited answer.new) }
    ensures reason { result ≡ 1 → TellsReason script.now certificate.now answer.new }
    ensures fault { result ≡ 2 → TellsFaultOf script.now certificate.now answer.new }
{
    match judge(alloc, script, certificate) {
        Ok(judged) => {
            *answer = Answer::of_judged(&judged);
            verdict_status(judged.verdict)
        }
        Err(fault) => {
            *answer = Answer::of_fault(fault);
            fault_status(fault)
        }
    }
}

/// Searches for a certificate, as `sedck rank` does, and puts its text, or the loop that rules all out, into the caller's room.
#[unsafe(no_mangle)]
pub extern "C" fn sedck_rank(
    alloc: Global,
    script: &[u8],
    room: &mut [u8],
    needed: &mut usize,
) -> u32
    ensures within { (result ≤ 2) ⊎ (result ≡ 4) ⊎ (result ≡ 5) }
    ensures found { result ≡ 0 → Gives (RanksTo script.now Yes) room.new needed.new }
    ensures looping { result ≡ 1 → Gives (RanksTo script.now No) room.new needed.new }
    ensures refused { result ≡ 2 → (p : Program) → ¬ Spells script.now p }
    ensures small { result ≡ 5 → IsNeededToRank script.now needed.new × IsTooSmall room.old room.new needed.new }
{
    *needed = 0;
    match ranked(alloc, script) {
        Ok((Outcome::Yes, text)) => put_with(ACCEPTED, &text, room, needed),
        Ok((Outcome::No, text)) => put_with(REJECTED, &text, room, needed),
        Err(RunFault::Script(_)) => REFUSED,
        Err(_) => MEMORY,
    }
}

/// Judges a script without a certificate of the caller's: searches for one, checks it, and gives the limit on the steps and the
/// lists of the files.
#[unsafe(no_mangle)]
pub extern "C" fn sedck_judge(
    alloc: Global,
    script: &[u8],
    answer: &mut Answer,
    room: &mut [u8],
    needed: &mut usize,
) -> u32
    // The script's runs end, and all that the caller gets is of one certificate.
    ensures promise { result ≡ 0 → HasOne script.now (IsTold answer.new room.new needed.new) }
    ensures within { (result ≤ 2) ⊎ (result ≡ 4) ⊎ (result ≡ 5) }
    // Each status exactly where it is due, unless memory or the room runs out.
    ensures accepted { result ≢ 4 → result ≢ 5 → (result ≡ 0) ↔ HasOne script.now Accepts }
    ensures rejected { result ≢ 4 → result ≢ 5 → (result ≡ 1) ↔ HasNone script.now }
    ensures refused { result ≡ 2 → (p : Program) → ¬ Spells script.now p }
    ensures small { result ≡ 5 → IsNeeded script.now needed.new × IsTooSmall room.old room.new needed.new }
    ensures fault { result ≡ 2 → TellsScriptFaultOf script.now answer.new }
{
    *needed = 0;
    match certify(alloc, script) {
        Ok(Some(found)) => {
            *answer = Answer::of_accepted(&found.cert, found.bound);
            put_lists(alloc, &found.cert, room, needed)
        }
        Ok(None) => {
            *answer = Answer::nothing();
            REJECTED
        }
        Err(why) => {
            *answer = Answer::of_script_fault(why);
            fault_status(Fault::Script(why))
        }
    }
}
