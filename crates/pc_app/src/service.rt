//! The top call.

ghost use Rattle.std.specs.Prelude.{◌≡◌, ◌↔◌, ◌⊎◌, ℕ, List, map, string_bytes};
ghost use Rattle.pc_ports.specs.Outside.{Rose};
ghost use Rattle.pc_words.specs.Words.{Order};
ghost use Rattle.pc_words.specs.Taken.{AreCommand, Orders, IsInfer, IsCertify, IsReplay, IsRun, IsBreach, IsFacts, IsQuick, IsShow, IsTrial};
ghost use Rattle.pc_words.specs.declared.domains.FactsDomain.{FactsDomain};
ghost use Rattle.pc_words.specs.declared.domains.QuickDomain.{QuickDomain};
ghost use Rattle.pc_app.specs.Tasks.{Keeps};
ghost use Rattle.pc_app.specs.Infer.{infer, certify};
ghost use Rattle.pc_app.specs.Replay.{IsRuling, replay};
ghost use Rattle.pc_app.specs.Run.{IsVerdict, run};
ghost use Rattle.pc_app.specs.Breach.{breach};
ghost use Rattle.pc_app.specs.Facts.{facts};
ghost use Rattle.pc_app.specs.Quick.{quick};
ghost use Rattle.pc_app.specs.Show.{show};
ghost use Rattle.pc_app.specs.Trial.{trial};
ghost use Rattle.pc_app.specs.Table.{files_of};
ghost use Rattle.pc_app.specs.Answers.{LacksFile};
ghost use Rattle.pc_app.specs.Promises.{OrderIsTooLong, OrderIsFaulty, OrderIsMeant, OrderHasFailed, OrderIsPast, IsOutcome, AreTold, AreThere, IsOnlyStatus, IsWritten, IsAnswered, HasAnswered, IsCutOff, Ends};

use crate::answer::{Answer, Stop, answer_to_words};
use crate::status::{
    DONE, FAILED, MALFORMED, NO_MEMORY, PAST, REFUSED, SINK_FAILED, STORE_FAILED, TOO_LONG, USAGE,
};
use pc_ports::{Sink, Store, WriteFault, put_all};
use std::alloc::Global;

/// Answers the words of a command line, and ends with a status.
///
/// The words are those after the program's name. What is written to the sink, once the files that
/// they name were read from the store:
///
/// - `infer F`: a condition on the entry states of the source `F`, and with `--certificate` a
///   certificate of one;
/// - `replay F C`: the ruling on the certificate `C` for the source `F`, and where it is accepted
///   its condition;
/// - `run F S`: the verdict on the run of the source `F` over the script `S`;
/// - `breach F S`: choices that break an assertion of the source `F` from the entry of the script `S`;
/// - `facts F --domain=boxes` or `polyhedra`: for each point of the source `F` what the domain
///   knows there;
/// - `quick F --domain=rows` or `boxes`: the condition on the entry states of the source `F` that
///   the domain finds going back once;
/// - `show F`: the canonical text of the source `F`;
/// - `trial N`: how large the made source with `N` loops is, and its condition.
///
/// Words in none of these forms are asked of `clap`, and those that it takes are answered as the
/// form that its answer is written as.
///
/// An answer ends with [`DONE`], but a refused certificate, a violated assertion and choices that
/// break one with [`FAILED`], and a run or a search whose numbers leave the range with [`PAST`].
/// What is written with each other status, and when it comes, stands with the statuses.
pub fn serve<S: Store, K: Sink>(alloc: Global, words: &[String], store: &mut S, out: &mut K) -> u8
    // In all clauses words order something in its plain form, or, where they are in none, as `clap` takes them.
    //
    // Words `infer F`, done: the bytes of F spell a program, and the condition of a certificate was printed that is
    // inferred for it: it suffices (`sound`), on tame and straight programs no other entry state is safe (`exact`), and
    // it loses no promised guess (`covering`).
    ensures infer { (source : List ℕ) → IsInfer (map string_bytes words.now) source → result ≡ DONE →
        Keeps (infer source) (S.holding store.old) result (K.written out.old) (K.written out.new) }

    // Words `infer F --certificate`, done: the text of such a certificate was printed, which is short enough to be read.
    ensures certify { (source : List ℕ) → IsCertify (map string_bytes words.now) source → result ≡ DONE →
        Keeps (certify source) (S.holding store.old) result (K.written out.old) (K.written out.new) }

    // Words `replay F C`, done or failed: the ruling was printed on the certificate of C, whoever made it, which is the
    // first refusal in the order of the rule. Done: it is right for the program of F, and every entry state that meets
    // the condition that was printed is safe.
    ensures replay { (source certificate : List ℕ) → IsReplay (map string_bytes words.now) source certificate → IsRuling result →
        Keeps (replay source certificate) (S.holding store.old) result (K.written out.old) (K.written out.new) }

    // Words `run F S`: the verdict on the machine's run of the program of F over the choices of S.
    ensures run { (source script : List ℕ) → IsRun (map string_bytes words.now) source script → IsVerdict result →
        Keeps (run source script) (S.holding store.old) result (K.written out.old) (K.written out.new) }

    // Words `breach F S`, of a straight program without open ends. Done: the entry state of S is safe. Failed: a script
    // with this entry was printed, and the machine's run over its choices, which are a function of the program and the
    // entry, violates an assertion. Past only where the numbers are not tame.
    ensures breach { (source script : List ℕ) → IsBreach (map string_bytes words.now) source script → IsVerdict result →
        Keeps (breach source script) (S.holding store.old) result (K.written out.old) (K.written out.new) }

    // Words `facts F --domain=..`, done: a line for each point of the program's graph, with rows that each state meets
    // which some walk from an entry state brings there. With boxes, where the program has no loops, they are exactly
    // the rows of the box at the point; with polyhedra, on few assertions and assumptions alone, an entry state meets
    // the rows that were printed exactly where it comes to the point.
    ensures facts { (domain : FactsDomain) (source : List ℕ) → IsFacts (map string_bytes words.now) domain source → result ≡ DONE →
        Keeps (facts domain source) (S.holding store.old) result (K.written out.old) (K.written out.new) }

    // Words `quick F --domain=..`, done: a condition of at most one line was printed, and every entry state that meets
    // it is safe. With rows, on a tame program without loops, every state that meets what is needed at the entry meets
    // it; with boxes, on a tame and straight program without two variables in a right side or in a row of an assertion,
    // exactly the safe entry states do.
    ensures quick { (domain : QuickDomain) (source : List ℕ) → IsQuick (map string_bytes words.now) domain source → result ≡ DONE →
        Keeps (quick domain source) (S.holding store.old) result (K.written out.old) (K.written out.new) }

    // Words `show F`, done: the canonical text of the program.
    ensures show { (source : List ℕ) → IsShow (map string_bytes words.now) source → result ≡ DONE →
        Keeps (show source) (S.holding store.old) result (K.written out.old) (K.written out.new) }

    // Words `trial N`, done: the made source spells a program; how large both are and how many alternatives the
    // condition has was printed, and then the condition, of which holds what holds of `infer`.
    ensures trial { (loops : ℕ) → IsTrial (map string_bytes words.now) loops → result ≡ DONE →
        Keeps (trial loops) (S.holding store.old) result (K.written out.old) (K.written out.new) }

    // Each answer is written whole.
    ensures answered { IsAnswered result →
        HasAnswered (map string_bytes words.now) (S.holding store.old) result (K.written out.old) (K.written out.new) }

    // Where the files are told, no other status answers the words: each comes exactly where its cause stands.
    ensures only { IsAnswered result → IsOnlyStatus (map string_bytes words.now) (S.holding store.old) result }

    // How the program is used exactly for words that are in no plain form and that `clap` does not take.
    ensures usage { IsAnswered result → (result ≡ USAGE) ↔ (AreCommand (map string_bytes words.now) → ⊥) }

    // Where the files are told. Too long exactly where more bytes than its limit are held under a name:
    // that of the source, or the other behind a source that is read.
    ensures too_long { (order : Order) → Orders (map string_bytes words.now) order → AreTold (S.holding store.old) (files_of order) →
        IsAnswered result → (result ≡ TOO_LONG) ↔ OrderIsTooLong (S.holding store.old) order }

    // Refused and malformed exactly where the bytes of a file have a fault, with the status of its kind: those of the
    // source, which spell no program (or for `breach` one that is not straight or has an open end), and behind a source
    // that is read those of the certificate or the script.
    ensures refused { (order : Order) → Orders (map string_bytes words.now) order → AreTold (S.holding store.old) (files_of order) →
        IsAnswered result → (result ≡ REFUSED) ↔ OrderIsFaulty REFUSED (S.holding store.old) order }
    ensures malformed { (order : Order) → Orders (map string_bytes words.now) order → AreTold (S.holding store.old) (files_of order) →
        IsAnswered result → (result ≡ MALFORMED) ↔ OrderIsFaulty MALFORMED (S.holding store.old) order }

    // Failed exactly where a source is read, and the certificate behind it is not right for the program's graph, or
    // the run over the script behind it violates an assertion, or the entry of the script breaks one.
    ensures failed { (order : Order) → Orders (map string_bytes words.now) order → AreTold (S.holding store.old) (files_of order) →
        IsAnswered result → (result ≡ FAILED) ↔ OrderHasFailed (S.holding store.old) order }

    // Past exactly where a source is read, and the run over the script behind it needs a value that is not in range, or
    // what is needed at the entry or its values at the entry of the script are not in range.
    ensures past { (order : Order) → Orders (map string_bytes words.now) order → AreTold (S.holding store.old) (files_of order) →
        IsAnswered result → (result ≡ PAST) ↔ OrderIsPast (S.holding store.old) order }

    // The faults outside have their causes; a second file is lost only behind a source that may be read.
    // Without memory, and without a file, nothing is written.
    ensures store { result ≡ STORE_FAILED →
        LacksFile (map string_bytes words.now) (S.holding store.old) (S.faults store.old) (S.faults store.new) }
    ensures sink { result ≡ SINK_FAILED →
        IsCutOff (map string_bytes words.now) (S.holding store.old) (K.written out.old) (K.written out.new) (K.faults out.old) (K.faults out.new) }
    ensures unwritten { (result ≡ STORE_FAILED) ⊎ (result ≡ NO_MEMORY) → K.written out.new ≡ K.written out.old }

    // Where nothing outside fails and the files are there, every call is answered, but for want of memory.
    ensures answers { (order : Order) → Orders (map string_bytes words.now) order → AreThere (S.holding store.old) (files_of order) →
        (Rose (S.faults store.old) (S.faults store.new) → ⊥) → (Rose (K.faults out.old) (K.faults out.new) → ⊥) →
        IsAnswered result ⊎ (result ≡ NO_MEMORY) }

    // Where nothing outside fails, files that are held, short enough and what they are to be come to the
    // order's end, but for want of memory.
    ensures complete { (order : Order) → Orders (map string_bytes words.now) order → AreTold (S.holding store.old) (files_of order) →
        OrderIsMeant (S.holding store.old) order →
        (Rose (S.faults store.old) (S.faults store.new) → ⊥) → (Rose (K.faults out.old) (K.faults out.new) → ⊥) →
        IsOutcome order result ⊎ (result ≡ NO_MEMORY) }

    // The store holds what it held.
    ensures kept { (name : List ℕ) → S.holding store.new name ≡ S.holding store.old name }
{
    respond(alloc, words, store, out)
}

/// Answers the words, and says how that went by the status.
fn respond<S: Store, K: Sink>(alloc: Global, words: &[String], store: &mut S, out: &mut K) -> u8
    ensures ends { Ends (map string_bytes words.now) (S.holding store.old) (K.written out.old) (K.written out.new)
        (S.faults store.old) (S.faults store.new) (K.faults out.old) (K.faults out.new) result }
    ensures kept { (name : List ℕ) → S.holding store.new name ≡ S.holding store.old name }
{
    match answer_to_words(alloc, words, store) {
        Ok(answer) | Err(Stop::Refused(answer)) => written(answer, out),
        Err(Stop::Store) => STORE_FAILED,
        Err(Stop::Memory) => NO_MEMORY,
    }
}

/// Writes an answer, and says how that went by the status.
fn written<K: Sink>(answer: Answer, out: &mut K) -> u8
    ensures { IsWritten answer.status answer.text (K.written out.old) (K.written out.new) (K.faults out.old) (K.faults out.new) result }
{
    match put_all(out, answer.text.bytes()) {
        Ok(()) => answer.status,
        Err(WriteFault) => SINK_FAILED,
    }
}
