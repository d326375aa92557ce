// The writer (§6.1): the blocks of an automaton whose rules are given flat, six numbers a rule.
ghost use Rattle.std.specs.Prelude.{◌≡◌, ◌++◌, ◌+◌, ◌≤◌, ◌<◌, length};
ghost use Rattle.model.specs.Base.{over};
ghost use Rattle.model.specs.Listing.{little, block_of, rule_body, rule_blocks, emitted};
ghost use Rattle.list.specs.Flat.{rule_width, flat_width, flat_rule, flat_rules, flat_sheet, Short};
ghost use Rattle.list.specs.Put.{put_at};

use crate::blocks::byte_at;

// Numbers in a flat rule: symbol, four child states, target.
pub const RULE_WIDTH: usize = 6;

// How many child states a rule of a symbol has.
pub fn width(counts: &[u8], symbol: usize) -> usize
    ensures { result ≡ flat_width counts.now symbol }
{
    usize::from(byte_at(counts, symbol)).min(4)
}

// New bytes over those that stand at a place.
pub fn put_bytes(out: &mut [u8], at: usize, new: &[u8]) -> usize
    requires { at + length new.now ≤ length out.old }
    ensures value { result ≡ at + length new.now }
    ensures bytes { out.new ≡ put_at at new.now out.old }
{
    let end = at + new.len();
    out[at..end].copy_from_slice(new);
    end
}

// The head of a block: the size of its body, and its kind.
fn put_head(out: &mut [u8], at: usize, size: usize, kind: u8) -> usize
    requires { (size < 256) × (at + 6 ≤ length out.old) }
    ensures value { result ≡ at + 6 }
    ensures bytes { out.new ≡ put_at at (little 4 size ++ little 2 kind) out.old }
{
    let after = put_bytes(out, at, &(size as u32).to_le_bytes());
    put_bytes(out, after, &(kind as u16).to_le_bytes())
}

// A block whose body is given in one piece.
fn put_block(out: &mut [u8], at: usize, kind: u8, body: &[u8]) -> usize
    requires { (length body.now < 256) × (at + (6 + length body.now) ≤ length out.old) }
    ensures value { result ≡ at + (6 + length body.now) }
    ensures bytes { out.new ≡ put_at at (block_of kind body.now) out.old }
{
    let after = put_head(out, at, body.len(), kind);
    put_bytes(out, after, body)
}

// The block of the rule at the head of flat rules.
fn put_rule(counts: &[u8], rules: &[u8], out: &mut [u8], at: usize) -> usize
    requires { (rule_width ≤ length rules.now)
        × (at + (8 + length (flat_rule counts.now rules.now).states) ≤ length out.old) }
    ensures value { result ≡ at + (8 + length (flat_rule counts.now rules.now).states) }
    ensures bytes { let rule = flat_rule counts.now rules.now in
        out.new ≡ put_at at (block_of 3 (rule_body rule)) out.old }
{
    let n = width(counts, rules[0] as usize);
    let after = put_head(out, at, n + 2, 3);
    let last = put_bytes(out, after, &rules[..n + 1]);
    put_bytes(out, last, &rules[5..RULE_WIDTH])
}

// The blocks of the rules, in their order.
fn put_rules(counts: &[u8], rules: &[u8], out: &mut [u8], start: usize) -> usize
    requires { start + length (rule_blocks (flat_rules counts.now rules.now)) ≤ length out.old }
    ensures value { result ≡ start + length (rule_blocks (flat_rules counts.now rules.now)) }
    ensures bytes { let all = flat_rules counts.now rules.now in
        out.new ≡ put_at start (rule_blocks all) out.old }
{
    let mut at = start;
    for rule in rules.chunks_exact(RULE_WIDTH) {
        at = put_rule(counts, rule, out, at);
    }
    at
}

// How many bytes the list of an automaton has.
pub fn list_size(counts: &[u8], finals: &[u8], rules: &[u8]) -> u32
    requires { Short counts.now finals.now rules.now }
    ensures { result ≡ length (emitted (flat_sheet counts.now finals.now rules.now)) }
{
    let mut size: usize = 12 + counts.len() + finals.len();
    for rule in rules.chunks_exact(RULE_WIDTH) {
        size += 8 + width(counts, rule[0] as usize);
    }
    size as u32
}

// The list of an automaton at the beginning of the bytes; those past it stay.
pub fn write_list(counts: &[u8], finals: &[u8], rules: &[u8], out: &mut [u8]) -> u32
    requires short { Short counts.now finals.now rules.now }
    requires room { length (emitted (flat_sheet counts.now finals.now rules.now)) ≤ length out.old }
    ensures value { result ≡ length (emitted (flat_sheet counts.now finals.now rules.now)) }
    ensures bytes { let a = flat_sheet counts.now finals.now rules.now in
        out.new ≡ over (emitted a) out.old }
{
    let after = put_block(out, 0, 1, counts);
    let start = put_block(out, after, 2, finals);
    let end = put_rules(counts, rules, out, start);
    end as u32
}
