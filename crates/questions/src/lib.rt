// The public questions. Any bytes may be asked about, and a refusal of the reader is passed up unchanged.
#![tactic(auto)]

ghost use Rattle.std.specs.Prelude.{◌≡◌, length};
ghost use Rattle.paper.specs.Questions.{scoping as scoping_answer, closedness as closedness_answer, demands as demands_answer, arithmetic as arithmetic_answer, list as list_answer, list_buffer};
ghost use Rattle.names.specs.Words.{mem};

use accepted::answer_check;
use listing::Check;
use names::Names;
use paper::{Finding, Refusal, Unlisted};
use record::reader::read;
use refusals::passed;

// The first entry of 20 to 27 where the seed's names are in scope, if there is one.
pub fn scoping(bytes: &[u8], seed: Names) -> Result<Option<Finding>, Refusal>
    ensures { result ≡ scoping_answer bytes.now (mem seed) }
{
    let reading = read(bytes);
    let Ok(counts) = reading.verdict else {
        return Err(passed(reading.verdict));
    };
    let words = reading.arena.reserved;
    let check = Check::Scoping { seed, words };
    Ok(answer_check(bytes, &reading.arena, counts.nodes, check))
}

// The first entry of 28, if there is one.
pub fn closedness(bytes: &[u8]) -> Result<Option<Finding>, Refusal>
    ensures { result ≡ closedness_answer bytes.now }
{
    let reading = read(bytes);
    let Ok(counts) = reading.verdict else {
        return Err(passed(reading.verdict));
    };
    Ok(answer_check(bytes, &reading.arena, counts.nodes, Check::Closedness))
}

// The first entry of 30 to 32, if there is one.
pub fn demands(bytes: &[u8]) -> Result<Option<Finding>, Refusal>
    ensures { result ≡ demands_answer bytes.now }
{
    let reading = read(bytes);
    let Ok(counts) = reading.verdict else {
        return Err(passed(reading.verdict));
    };
    Ok(answer_check(bytes, &reading.arena, counts.nodes, Check::Demands))
}

// Whether arithmetic is an operand of a comparison.
pub fn arithmetic(bytes: &[u8]) -> Result<bool, Refusal>
    ensures { result ≡ arithmetic_answer bytes.now }
{
    let reading = read(bytes);
    let Ok(counts) = reading.verdict else {
        return Err(passed(reading.verdict));
    };
    Ok(accepted::arithmetic(bytes, &reading.arena, counts.nodes))
}

// The list, in the first entries of the buffer, and its length; or the entries needed, where the buffer has fewer.
pub fn list(bytes: &[u8], out: &mut [u32]) -> Result<usize, Unlisted>
    ensures { (result ≡ list_answer bytes.now (length out.old)) × (out.new ≡ list_buffer bytes.now out.old) }
{
    let reading = read(bytes);
    let Ok(counts) = reading.verdict else {
        return Err(Unlisted::from(passed(reading.verdict)));
    };
    accepted::list(bytes, &reading.arena, counts, out)
}
