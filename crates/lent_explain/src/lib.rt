// The tool (L1) on the head as words, the words of the mapping records and the index, which are lent. Another number of records than 128 is -117. What it tells is written in five
// words; a refusal leaves them.
#![tactic(auto)]

ghost use Rattle.std.specs.Prelude.{◌≡◌, length};
ghost use Rattle.rules_calls.specs.Results.{signed_result};
ghost use Rattle.rules_reasons.specs.Explain.{tool_errno, told_words};
ghost use Rattle.explain.specs.Answered.{ShortTold};
ghost use Rattle.lent_explain.specs.Serving.{ExplainServed};

use rules_reasons::Reason;

// The words of what is told, and the result.
fn tell(e: Result<Reason, u8>, words: &mut [u64]) -> i32
    requires { (length words.old ≡ 5) × ShortTold e }
    ensures { (result ≡ signed_result (tool_errno e)) × (words.new ≡ told_words e words.old) }
{
    match e {
        Err(n) => opening::signed_result(n),
        Ok(r) => {
            reason_words::write(r, words);
            opening::signed_result(0)
        }
    }
}

// The words of the records are lent as `&mut` because two `&` of a signature have to live equally long.
pub fn explain<'a>(
    h: &'a [u64; 865],
    count: usize,
    ws: &mut [[u64; 5]; 128],
    beside: &'a [u64],
    request: u32,
    cmd: &'a [u8],
    words: &mut [u64; 5],
) -> i32
    ensures { ExplainServed h.now count ws.old beside.now request cmd.now words.old result words.new }
{
    if count != lent_fresh::RECORDS {
        return opening::signed_result(117);
    }
    let e = explain::decide(h, ws, beside, request, cmd);
    tell(e, words)
}
