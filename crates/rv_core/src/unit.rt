//! One unit of the hart, issued and finished.

ghost use Rattle.std.specs.Prelude.{◌≡◌, ◌<◌, Some, None, Option};
ghost use Rattle.rv_table.specs.declared.instr.Instr.{Instr};
ghost use Rattle.rv_table.specs.Decoded.{decoded};
ghost use Rattle.rv_table.specs.Coding.{IsWithin};
ghost use Rattle.rv_core.specs.Rows.{IsLawful, completed};
ghost use Rattle.rv_core.specs.Operations.{with_reg};
ghost use Rattle.rv_core.specs.Units.{applied, effect_of, issued, waiting_of, unit_of, hart_after};

use crate::effect::Effect;
use crate::rows::{complete, perform, refuse};
use crate::{Hart, Issue, Rest, Waiting};
use rv_table::{Instr, decode};

/// Cause of a fetch outside memory.
const FETCH_FAULT: u32 = 1;
/// Cause of a word that is no instruction.
const ILLEGAL_INSTRUCTION: u32 = 2;

/// The instruction of a word.
#[inline]
fn instruction(word: u32) -> Option<Instr>
    ensures value { result ≡ decoded word }
    ensures within { (i : Instr) → result ≡ Some i → IsWithin i }
{
    decode(word)
}

#[tactic(auto, unfolding(crate::specs::Units::effect_of))]
#[inline(always)]
/// What the unit does, at the word at pc, where pc is in memory, and at the pending interrupts.
fn effect(hart: &Hart, fetched: Option<u32>, pending: u32) -> Effect
    ensures effect { result ≡ effect_of hart.now fetched pending }
    ensures lawful { IsLawful result }
{
    if let Some(cause) = hart.csrs.interrupt(pending) {
        return Effect::Traps { cause, value: 0 };
    }
    let word = match fetched {
        Some(word) => word,
        None => return Effect::Traps {
            cause: FETCH_FAULT,
            value: hart.pc,
        },
    };
    match instruction(word) {
        Some(instr) => perform(hart, pending, word, instr),
        None => Effect::Traps {
            cause: ILLEGAL_INSTRUCTION,
            value: word,
        },
    }
}

/// A register takes a value; x0 doesn't.
#[inline]
fn write_reg(regs: &mut [u32; 32], rd: u32, value: u32)
    requires { rd < 32 }
    ensures { regs.new ≡ with_reg regs.old rd value }
{
    if rd != 0 {
        regs[rd as usize] = value;
    }
}

/// Does with the hart what a unit does. An access changes nothing before its answer.
#[inline(always)]
fn apply(hart: &mut Hart, effect: Effect)
    requires { IsLawful effect }
    ensures { hart.new ≡ applied hart.old effect }
{
    match effect {
        Effect::Goes { rd, value, pc } => {
            write_reg(&mut hart.regs, rd, value);
            hart.pc = pc;
        }
        Effect::Updates {
            rd,
            value,
            number,
            new,
        } => {
            write_reg(&mut hart.regs, rd, value);
            let _written = hart.csrs.write(number, new);
            hart.pc = hart.pc.wrapping_add(4);
        }
        Effect::Traps { cause, value } => hart.pc = hart.csrs.trap(cause, hart.pc, value),
        Effect::Returns => hart.pc = hart.csrs.mret(),
        Effect::Accesses { .. } => {}
    }
}

/// Issues one unit of a hart.
///
/// `fetched` is the word at pc, or `None` where pc isn't in memory; `pending` is the value of mip. The hart is copied
/// where the unit is done, and not where it makes an access.
pub fn issue(hart: &Hart, fetched: Option<u32>, pending: u32) -> Issue
    ensures { result ≡ issued hart.now (effect_of hart.now fetched pending) }
{
    let effect = effect(hart, fetched, pending);
    match effect {
        Effect::Accesses { access, instr } => Issue::Bus {
            request: access,
            rest: Rest::of(instr),
        },
        Effect::Traps { .. } => {
            let mut next = *hart;
            apply(&mut next, effect);
            Issue::Trap(next)
        }
        _ => {
            let mut next = *hart;
            apply(&mut next, effect);
            Issue::Local(next)
        }
    }
}

/// Finishes a unit that made an access. `answer` is the word that a load is given, whose bytes above the access's size
/// don't count, or `None` where the access was refused.
pub fn finish(hart: &Hart, rest: Rest, answer: Option<u32>) -> Hart
    ensures { result ≡ applied hart.now (completed hart.now rest answer) }
{
    let mut next = *hart;
    finish_in_place(&mut next, rest, answer);
    next
}

/// Issues one unit of a hart in its place: what [`issue`] does without a copy. It gives the access that the unit
/// makes, and then the hart is as before, or `None` where the unit is done.
pub fn issue_in_place(hart: &mut Hart, fetched: Option<u32>, pending: u32) -> Option<Waiting>
    ensures hart { hart.new ≡ applied hart.old (effect_of hart.old fetched pending) }
    ensures waiting { result ≡ waiting_of (effect_of hart.old fetched pending) }
{
    match effect(hart, fetched, pending) {
        Effect::Accesses { access, instr } => Some(Waiting {
            request: access,
            rest: Rest::of(instr),
        }),
        effect => {
            apply(hart, effect);
            None
        }
    }
}

/// Finishes a unit in the hart's place: what [`finish`] does without a copy.
pub fn finish_in_place(hart: &mut Hart, rest: Rest, answer: Option<u32>)
    ensures { hart.new ≡ applied hart.old (completed hart.old rest answer) }
{
    let instr = rest.instr();
    let effect = match answer {
        Some(word) => complete(hart, instr, word),
        None => refuse(hart, instr),
    };
    apply(hart, effect);
}

/// Issuing a unit and then finishing it, where it makes an access, is the unit.
pub fn unit(hart: &Hart, fetched: Option<u32>, pending: u32, answer: Option<u32>) -> Hart
    ensures { result ≡ hart_after (unit_of hart.now fetched pending) answer }
{
    match issue(hart, fetched, pending) {
        Issue::Local(next) => next,
        Issue::Trap(next) => next,
        Issue::Bus { rest, .. } => finish(hart, rest, answer),
    }
}
