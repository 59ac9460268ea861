// Document 01's examples of what check refuses, sheets at the ends of Z, sheets with procedures, ids that enclosing
// binders hold, and names that ask once, through the service check.
#![tactic(auto)]

use sheet_judge::check::check;
use sheet_records::refusal::Sheets;

fn say(rt: &impl Print, s: &[u8]) {
    let _ = rt.write_all(s);
}

fn number(rt: &impl Print, n: u64) {
    let _ = rt.print(n);
}

// Writes the name of the sheet that a refusal names.
fn name(rt: &impl Print, sheet: Sheets) {
    match sheet {
        Sheets::Old => {
            say(rt, b" old ");
        }
        Sheets::New => {
            say(rt, b" new ");
        }
        Sheets::Both => {
            say(rt, b" both ");
        }
    }
}

// Writes the answer to a sheet as one line.
fn show(rt: &impl Print, s: &[u8]) {
    match check(s) {
        Ok(checked) => {
            say(rt, b"accepted type ");
            number(rt, checked.ty as u64);
            say(rt, b" size ");
            number(rt, checked.size as u64);
        }
        Err(x) => {
            say(rt, b"refused ");
            number(rt, x.reason as u64);
            name(rt, x.sheet);
            number(rt, x.place as u64);
        }
    }
    say(rt, b"\n");
}

// Byte base + i becomes v, where there is such a byte.
fn put(s: &mut [u8], base: usize, i: usize, v: u8) {
    if base <= s.len() {
        if i < s.len() - base {
            s[base + i] = v;
        }
    }
}

// The bytes of part from byte base on.
fn fill(s: &mut [u8], base: usize, part: &[u8]) {
    for (i, v) in part.iter().enumerate() {
        put(s, base, i, *v);
    }
}

// The sheet in which 8 (c) is a command and 9 is retired, with a term of at most 240 bytes.
fn named(rt: &impl Print, term: &[u8]) {
    let mut s = [0u8; 252];
    fill(
        &mut s,
        0,
        b"\x01\x00\x01\x08\x00\x00\xff\xff\xff\xff\x02\x09",
    );
    fill(&mut s, 12, term);
    let n = term.len();
    if n <= 240 {
        show(rt, &s[..12 + n]);
    }
}

// Document 02, [1]: the bytes of a procedure's record.
fn procedures(rt: &impl Print) {
    named(rt, b"\x1c\xff");
    named(rt, b"\x1c\x08");
    named(
        rt,
        b"\x1c\x09\x00\x00\xff\xff\xff\xff\xff\xff\xff\xff\x10\x10",
    );
    named(rt, b"\x1c\x02\x05");
    named(rt, b"\x1c\x02\x00\x05");
    named(rt, b"\x1c\x02\x00\x01\xff");
    named(rt, b"\x1c\x02\x00\x01\x08");
    named(rt, b"\x1c\x02\x00\x01\x09\x07");
    named(rt, b"\x1c\x02\x00\x02\x04\x00\x04\x00");
    named(rt, b"\x1c\x02\x00\x02\x04\x05\x04\x00");
    named(
        rt,
        b"\x1c\x02\x00\x01\x02\x00\xff\xff\xff\xff\xff\xff\x14\x02\x14\x02\x14\x08",
    );
    named(rt, b"\x1c\x02\x00\x01\x04\x00\x04");
    named(rt, b"\x1c\x02\x00\x01\x04\x00\xff\x00");
    named(rt, b"\x1c\x02\x00\x01\x04");
    named(rt, b"\x1c\x02\x00\x00\xff\xff\xff\xff\xff\xff\xff\xff");
    named(rt, b"\x1c\x02\x00\x00\xff\xff\xff\xff\xff\xff\xff\xff\x10");
}

// The scopes and types of procedures.
fn scopes(rt: &impl Print) {
    named(
        rt,
        b"\x1c\x02\x00\x00\xff\xff\xff\xff\xff\xff\xff\xff\x14\x02\x10",
    );
    named(
        rt,
        b"\x1c\x02\x00\x01\x04\x00\xff\xff\xff\xff\xff\xff\x14\x04\x14\x04",
    );
    named(
        rt,
        b"\x1c\x02\x00\x00\xff\xff\xff\xff\xff\xff\xff\xff\x14\x09\x10",
    );
    named(rt, b"\x1c\x02\x01\x00\xff\xff\xff\xff\xff\xff\xff\xff\x10");
    named(
        rt,
        b"\x1c\x02\x00\x01\x05\x02\xff\xff\xff\xff\xff\xff\x10\x14\x02\x10",
    );
    named(
        rt,
        b"\x1c\x02\x00\x01\x04\x00\xff\xff\xff\xff\xff\xff\x10\x14\x02",
    );
    named(
        rt,
        b"\x1c\x02\x00\x00\xff\xff\xff\xff\xff\xff\xff\xff\x10\x14\x02\x10",
    );
    named(
        rt,
        b"\x1c\x02\x00\x00\xff\xff\xff\xff\xff\xff\xff\xff\x10\x10\x1c",
    );
    named(
        rt,
        b"\x1c\x02\x00\x00\xff\xff\xff\xff\xff\xff\xff\xff\x10\x01",
    );
}

// Thirty-one sequences, each the second part of the one before, from the first byte on; 62 bytes.
fn sequences(t: &mut [u8]) {
    let ten = b"\x18\x10\x18\x10\x18\x10\x18\x10\x18\x10\x18\x10\x18\x10\x18\x10\x18\x10\x18\x10";
    fill(t, 0, ten);
    fill(t, 20, ten);
    fill(t, 40, ten);
    fill(t, 60, b"\x18\x10");
}

// Procedures at depths 31, 32 and 33.
fn depths(rt: &impl Print) {
    let procedure = b"\x1c\x02\x00\x00\xff\xff\xff\xff\xff\xff\xff\xff\x10\x10";
    let mut t = [0u8; 74];
    sequences(&mut t);
    fill(&mut t, 60, procedure);
    named(rt, &t);
    let mut deeper = [0u8; 76];
    sequences(&mut deeper);
    fill(&mut deeper, 62, procedure);
    named(rt, &deeper);
    let mut deepest = [0u8; 64];
    sequences(&mut deepest);
    fill(&mut deepest, 62, b"\x15\x1c");
    named(rt, &deepest);
    // An unknown kind.
    fill(&mut deepest, 62, b"\x15\x1d");
    named(rt, &deepest);
}

// A procedure with a parameter s (4) that uses another procedure of s, and that again; 18 bytes from byte base on.
fn link(t: &mut [u8], base: usize, id: u8, other: u8) {
    fill(
        t,
        base,
        b"\x1c\x00\x00\x01\x04\x00\xff\xff\xff\xff\xff\xff\x14\x00\x14\x00\x14\x04",
    );
    fill(t, base, &[28, id]);
    put(t, base, 13, other);
    put(t, base, 15, other);
}

// The procedure 20, which runs c and then its parameter, and five more, each of which uses the one before it twice.
fn lower(t: &mut [u8]) {
    fill(
        t,
        0,
        b"\x1c\x14\x00\x01\x04\x00\xff\xff\xff\xff\xff\xff\x18\x14\x08\x14\x04",
    );
    link(t, 17, 21, 20);
    link(t, 35, 22, 21);
    link(t, 53, 23, 22);
    link(t, 71, 24, 23);
    link(t, 89, 25, 24);
}

// Five more.
fn upper(t: &mut [u8]) {
    link(t, 107, 26, 25);
    link(t, 125, 27, 26);
    link(t, 143, 28, 27);
    link(t, 161, 29, 28);
    link(t, 179, 30, 29);
}

// All of them; 197 bytes.
fn chain(t: &mut [u8]) {
    lower(t);
    upper(t);
}

// 1,025 uses of c; 2,049, which are too many; and these in an argument that is not used.
fn weights(rt: &impl Print) {
    let mut t = [0u8; 201];
    chain(&mut t);
    fill(&mut t, 197, &[20, 30, 20, 8]);
    named(rt, &t);
    let mut longer = [0u8; 219];
    chain(&mut longer);
    link(&mut longer, 197, 31, 30);
    fill(&mut longer, 215, &[20, 31, 20, 8]);
    named(rt, &longer);
    let mut idle = [0u8; 234];
    chain(&mut idle);
    link(&mut idle, 197, 31, 30);
    fill(
        &mut idle,
        215,
        b"\x1c\x02\x00\x01\x04\x00\xff\xff\xff\xff\xff\xff\x10\x14\x02\x14\x1f\x14\x08",
    );
    named(rt, &idle);
}

// Document 02, [3]: news inside others and side by side.
fn blocks(rt: &impl Print) {
    // A new inside one with its id.
    show(rt, b"\x01\x00\x1b\x01\x02\x1b\x01");
    // In a part of a part.
    show(rt, b"\x01\x00\x1b\x01\x02\x18\x10\x1b\x01\x02\x10");
    // With another new between them.
    show(rt, b"\x01\x00\x1b\x01\x02\x1b\x02\x01\x1b\x01");
    // Side by side.
    show(rt, b"\x01\x00\x18\x1b\x01\x02\x10\x1b\x01\x02\x10");
    // Before the size.
    show(rt, b"\x07\x00\x1b\x00\x02\x1b\x00\x02\x17\x14\x00\x13\x00");
    // A retired id is 4.
    show(rt, b"\x01\x00\x02\x09\x1b\x01\x02\x1b\x09");
    // The range comes first.
    show(rt, b"\x01\x00\x1b\x01\x02\x1b\xff");
}

// Procedures and parameters inside others with their ids.
fn inner(rt: &impl Print) {
    // A procedure inside a new with its id.
    show(rt, b"\x01\x00\x1b\x01\x02\x1c\x01");
    // A parameter inside a new with its id.
    show(rt, b"\x01\x00\x1b\x01\x02\x1c\x02\x00\x02\x01");
    // Where a procedure may be used, a new, a procedure and a parameter with its id.
    show(
        rt,
        b"\x01\x00\x1c\x02\x00\x00\xff\xff\xff\xff\xff\xff\xff\xff\x10\x1b\x02",
    );
    show(
        rt,
        b"\x01\x00\x1c\x02\x00\x00\xff\xff\xff\xff\xff\xff\xff\xff\x10\x1c\x02",
    );
    show(
        rt,
        b"\x01\x00\x1c\x02\x00\x00\xff\xff\xff\xff\xff\xff\xff\xff\x10\x1c\x03\x00\x01\x02",
    );
    // An argument stands there too.
    show(
        rt,
        b"\x01\x00\x1c\x02\x00\x01\x04\x00\xff\xff\xff\xff\xff\xff\x10\x14\x02\x1b\x02",
    );
    // In the procedure's term, a new, a procedure and a parameter with the id of a parameter.
    show(
        rt,
        b"\x01\x00\x1c\x02\x00\x01\x04\x00\xff\xff\xff\xff\xff\xff\x1b\x04",
    );
    show(
        rt,
        b"\x01\x00\x1c\x02\x00\x01\x04\x00\xff\xff\xff\xff\xff\xff\x1c\x04",
    );
    show(
        rt,
        b"\x01\x00\x1c\x02\x00\x01\x04\x00\xff\xff\xff\xff\xff\xff\x1c\x03\x00\x01\x04",
    );
    // The procedure's own id there, where a parameter has it.
    show(
        rt,
        b"\x01\x00\x1c\x02\x00\x01\x02\x00\xff\xff\xff\xff\xff\xff\x1b\x02",
    );
    // The parameters of a record do not enclose each other: 4.
    show(rt, b"\x01\x00\x1b\x01\x02\x1c\x02\x00\x02\x05\x00\x05");
}

// Ids that no enclosing binder holds.
fn free(rt: &impl Print) {
    // A parameter with the procedure's own id.
    show(
        rt,
        b"\x01\x00\x1c\x02\x00\x01\x02\x00\xff\xff\xff\xff\xff\xff\x14\x02\x10",
    );
    // A new with the procedure's own id in its term.
    show(
        rt,
        b"\x01\x00\x1c\x02\x00\x00\xff\xff\xff\xff\xff\xff\xff\xff\x1b\x02\x01\x10\x10",
    );
    // A new with the id of a parameter where the procedure may be used.
    show(
        rt,
        b"\x01\x00\x1c\x02\x00\x01\x04\x00\xff\xff\xff\xff\xff\xff\x10\x1b\x04\x02\x10",
    );
    // Two procedures side by side.
    let procedure = b"\x1c\x02\x00\x00\xff\xff\xff\xff\xff\xff\xff\xff\x10\x10";
    let mut t = [24u8; 29];
    fill(&mut t, 1, procedure);
    fill(&mut t, 15, procedure);
    named(rt, &t);
    // A procedure in the term of another with its id.
    let mut inner = [16u8; 27];
    fill(
        &mut inner,
        0,
        b"\x1c\x02\x00\x00\xff\xff\xff\xff\xff\xff\xff\xff",
    );
    fill(&mut inner, 12, procedure);
    named(rt, &inner);
}

// Document 02, [5]: the bytes of a name record of kind 3, which are judged as those of kind 1.
fn once(rt: &impl Print) {
    // Cut short.
    show(rt, b"\x01\x00\x03");
    // The id, the result type, the number of arguments and an argument type out of range.
    show(rt, b"\x01\x00\x03\xff");
    show(rt, b"\x01\x00\x03\x07\x05");
    show(rt, b"\x01\x00\x03\x07\x00\x05");
    show(rt, b"\x01\x00\x03\x07\x00\x01\x05");
    // An unused argument type that is not 255, before the end and at the end.
    show(rt, b"\x01\x00\x03\x07\x00\x01\x00\xff\x00");
    show(rt, b"\x01\x00\x03\x07\x00\x03\x00\x00\x00\xfe");
    // An id that kind 1 declares, one that kind 3 declares, and a new on such a one.
    show(rt, b"\x01\x00\x01\x07\x00\x00\xff\xff\xff\xff\x03\x07");
    show(rt, b"\x01\x00\x03\x07\x00\x00\xff\xff\xff\xff\x01\x07");
    show(rt, b"\x01\x00\x03\x07\x00\x00\xff\xff\xff\xff\x1b\x07");
    // An argument of the wrong type.
    show(
        rt,
        b"\x01\x00\x03\x07\x00\x01\x00\xff\xff\xff\x14\x07\x13\x01",
    );
    // Inside the term, kind 3 is unknown.
    show(rt, b"\x01\x00\x18\x03\x07\x10");
    // Accepted, without arguments and with one.
    show(rt, b"\x01\x00\x03\x07\x00\x00\xff\xff\xff\xff\x14\x07");
    show(rt, b"\x01\x00\x03\x07\x00\x01\x00\xff\xff\xff\x14\x07\x10");
}

fn main(rt: HostRuntime) {
    show(&rt, b"");
    show(&rt, b"\x00");
    show(&rt, b"\x01\x00");
    show(&rt, b"\x01\x00\x13\x02");
    show(&rt, b"\x01\x00\x14\x05");
    show(&rt, b"\x01\x00\x02\x05\x14\x05");
    show(&rt, b"\x01\x00\x02\x05\x1b\x05\x02\x10");
    show(&rt, b"\x01\x00\x1a\x10\x10");
    show(&rt, b"\x01\x00\x10\x10");
    show(&rt, b"\x20\x00\x10");
    show(&rt, b"\x1f\x00\x10");
    procedures(&rt);
    scopes(&rt);
    depths(&rt);
    weights(&rt);
    blocks(&rt);
    inner(&rt);
    free(&rt);
    once(&rt);
}
