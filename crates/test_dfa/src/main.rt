// The services of silent, difference and live on automata made by hand: what they answer is written to standard output.
#![tactic(auto)]

use crate::checked::{Answer, Life, compare_checked, live_checked, settle_checked};
use dfa_difference::Task;

mod tested; // tested.rt: whether the words are an automaton
mod checked; // checked.rt: the services with their requirements tested

fn wide(x: u32) -> u64 {
    x as u64
}

// Word base + i; 0 where there is none.
fn word(words: &[u32], base: usize, i: usize) -> u64 {
    if base <= words.len() {
        if i < words.len() - base {
            return wide(words[base + i]);
        }
    }
    0
}

fn store(words: &mut [u32], base: usize, i: usize, v: u32) {
    if base <= words.len() {
        if i < words.len() - base {
            words[base + i] = v;
        }
    }
}

// part, from word base on
fn fill(words: &mut [u32], base: usize, part: &[u32]) {
    for (i, v) in part.iter().enumerate() {
        store(words, base, i, *v);
    }
}

fn say(rt: &impl Print, text: &[u8]) {
    let _ = rt.write_all(text);
}

// count words from base on, and a line's end
fn list(rt: &impl Print, words: &[u32], base: usize, count: usize) {
    for i in 0..count {
        say(rt, b" ");
        let _ = rt.print(word(words, base, i));
    }
    say(rt, b"\n");
}

fn show(rt: &impl Print, words: &[u32], base: usize, a: Answer) {
    match a {
        Answer::Invalid => say(rt, b" refused\n"),
        Answer::Equivalent => say(rt, b" alike\n"),
        Answer::Distinguished(len) => list(rt, words, base, len),
    }
}

fn tell(rt: &impl Print, l: Life) {
    match l {
        Life::Invalid => say(rt, b" refused\n"),
        Life::Live => say(rt, b" accepts\n"),
        Life::Dead => say(rt, b" accepts nothing\n"),
    }
}

// 0 goes by 1 to 1, by 2 to 3; 1 and 2 run silently for ever; 3 goes silently to 4; 5 is dead.
fn silent(rt: &impl Print) {
    let mut w = [0u32; 48];
    let s = [0, 3, 2, 5, 0, 0];
    let g = [0, 2, 2, 2, 2, 2, 2, 1, 1, 2, 3];
    fill(&mut w, 0, &s);
    fill(&mut w, 30, &g);
    if !settle_checked(&mut w, 6) {
        say(rt, b"not settled\n");
    }
    say(rt, b"settled:");
    list(rt, &w, 37, 4);
    say(rt, b"after a silent loop:");
    let a = compare_checked(
        &mut w,
        Task {
            n: 6,
            p: 0,
            q: 5,
            f: 4,
            g: 4,
            most: 6,
        },
    );
    show(rt, &w, 30, a);
}

// 0 goes by 5 to 2, 1 goes by 3 and by 5 to 2, which accepts; 3 is dead.
fn one_side(rt: &impl Print) {
    let mut w = [0u32; 40];
    let g = [0, 1, 3, 3, 3, 5, 2, 3, 2, 5, 2];
    fill(&mut w, 20, &g);
    say(rt, b"a letter on one side:");
    let a = compare_checked(
        &mut w,
        Task {
            n: 4,
            p: 0,
            q: 1,
            f: 2,
            g: 2,
            most: 4,
        },
    );
    show(rt, &w, 20, a);
}

// 0 and 1 take turns by 1 and 2, and so do 2 and 3; 0 and 2 accept; 4 is dead.
fn equal(rt: &impl Print) {
    let mut w = [0u32; 48];
    let g = [0, 1, 2, 3, 4, 4, 1, 1, 2, 0, 1, 3, 2, 2];
    fill(&mut w, 25, &g);
    say(rt, b"equal automata:");
    let a = compare_checked(
        &mut w,
        Task {
            n: 5,
            p: 0,
            q: 2,
            f: 0,
            g: 2,
            most: 5,
        },
    );
    show(rt, &w, 25, a);
}

// 0 accepts; 1 goes by 4 to itself; 2 is dead.
fn dead(rt: &impl Print) {
    let mut w = [0u32; 32];
    let g = [0, 0, 1, 1, 4, 1];
    fill(&mut w, 15, &g);
    say(rt, b"the accepting state:");
    tell(rt, live_checked(&mut w, 3, 0, 0));
    say(rt, b"a state that goes round:");
    tell(rt, live_checked(&mut w, 3, 1, 0));
    say(rt, b"a state that is none:");
    tell(rt, live_checked(&mut w, 3, 3, 0));
}

// 0 goes by 1 to 1 and by 2 to 2; 1 goes by 1 to itself; 2 goes by 1 to 3, which accepts; 4 is dead.
fn reached(rt: &impl Print) {
    let mut w = [0u32; 48];
    let g = [0, 2, 3, 4, 4, 4, 1, 1, 2, 2, 1, 1, 1, 3];
    fill(&mut w, 25, &g);
    say(rt, b"a state two steps away:");
    tell(rt, live_checked(&mut w, 5, 0, 3));
    say(rt, b"one that leads nowhere:");
    tell(rt, live_checked(&mut w, 5, 1, 3));
    say(rt, b"the dead state:");
    tell(rt, live_checked(&mut w, 5, 4, 3));
    let mut short = [0u32; 42];
    fill(&mut short, 25, &g);
    say(rt, b"no room to mark:");
    tell(rt, live_checked(&mut short, 5, 0, 3));
}

// The steps of the chain.
const STEPS: usize = 120;

// Its states, 0 to 120, and the dead one.
const STATES: usize = 122;

// Where its graph stands, and in it the first letter and the first target.
const GRAPH: usize = 610;

const LETTER: usize = 733;

const TARGET: usize = 734;

// A chain of steps by 7 from the state 0 to the state 120.
fn chain(words: &mut [u32]) {
    for i in 0..STEPS {
        store(words, GRAPH, i, i as u32);
        store(words, LETTER, 2 * i, 7);
        store(words, TARGET, 2 * i, (i + 1) as u32);
    }
    store(words, GRAPH, 120, 120);
    store(words, GRAPH, 121, 120);
    store(words, GRAPH, 122, 120);
}

// 120 accepts, and 121 is dead: 0 is told from 1 by 119 letters.
fn long(rt: &impl Print) {
    let mut w = [0u32; 1024];
    chain(&mut w);
    say(rt, b"a long word:");
    let a = compare_checked(
        &mut w,
        Task {
            n: STATES,
            p: 0,
            q: 1,
            f: STEPS,
            g: STEPS,
            most: STATES,
        },
    );
    show(rt, &w, GRAPH, a);
    long_enough(rt, 119);
    long_enough(rt, 118);
}

// The same words, looked for up to a number of letters.
fn long_enough(rt: &impl Print, most: usize) {
    let mut w = [0u32; 1024];
    chain(&mut w);
    say(rt, b"of at most as many letters:");
    let a = compare_checked(
        &mut w,
        Task {
            n: STATES,
            p: 0,
            q: 1,
            f: STEPS,
            g: STEPS,
            most,
        },
    );
    show(rt, &w, GRAPH, a);
}

// An edge that leads to no state.
fn wrong(rt: &impl Print) {
    let mut w = [0u32; 32];
    let g = [0, 1, 1, 1, 4, 3];
    fill(&mut w, 15, &g);
    say(rt, b"an edge to no state:");
    let a = compare_checked(
        &mut w,
        Task {
            n: 3,
            p: 0,
            q: 1,
            f: 0,
            g: 0,
            most: 3,
        },
    );
    show(rt, &w, 15, a);
}

fn main(rt: HostRuntime) {
    silent(&rt);
    one_side(&rt);
    equal(&rt);
    dead(&rt);
    reached(&rt);
    long(&rt);
    wrong(&rt);
}
