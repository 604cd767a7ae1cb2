use crate::trying::{Record, Trial, trial};
use std::io;

// Two names.
const A: Record = *b"T\0\0\x01\0\0\0\0";

const B: Record = *b"T\0\0\x02\0\0\0\0";

// A question and an abstraction over the terms. One over differences is `AD` with the number of its variables.
const ASK: Record = *b"AU\0\0\0\0\0\0";

const ABSTRACT: Record = *b"WU\0\0\0\0\0\0";

// The arguments of a term.
const TERMS: [Trial<'static>; 7] = [
    ("1: two arguments", &[&[A, *b"T\x02\0\x09\0\0\0\0", ASK]]),
    ("1: three arguments", &[&[A, *b"T\x03\0\x09\0\0\0\0", ASK]]),
    (
        "2: an earlier argument",
        &[&[A, *b"T\x01\0\x09\0\0\0\0", ASK]],
    ),
    (
        "2: a left argument that is its own number",
        &[&[A, *b"T\x01\0\x09\x01\0\0\0", ASK]],
    ),
    (
        "2: a right argument that is its own number",
        &[&[A, *b"T\x02\0\x09\0\x01\0\0", ASK]],
    ),
    (
        "3: an unused left argument that is not zero",
        &[&[A, *b"T\0\0\x09\x01\0\0\0", ASK]],
    ),
    (
        "3: an unused right argument that is not zero",
        &[&[A, *b"T\x01\0\x09\0\x01\0\0", ASK]],
    ),
];

// How many variables there are, and which a statement may name.
const VARIABLES: [Trial<'static>; 6] = [
    ("5: no variables", &[&[*b"AD\0\0\0\0\0\0"]]),
    (
        "5: 8 variables",
        &[&[*b"PL\x07\x07\xff\0\0\0", *b"AD\x08\0\0\0\0\0"]],
    ),
    ("5: 9 variables", &[&[*b"AD\x09\0\0\0\0\0"]]),
    (
        "7: the only variable",
        &[&[*b"PL\0\0\0\0\0\0", *b"AD\x01\0\0\0\0\0"]],
    ),
    (
        "7: no such variable",
        &[&[*b"PL\0\x01\0\0\0\0", *b"AD\x01\0\0\0\0\0"]],
    ),
    (
        "7: no variables and a predicate",
        &[&[*b"PL\0\0\0\0\0\0", *b"AD\0\0\0\0\0\0"]],
    ),
];

// The constants of a statement over differences.
const CONSTANTS: [Trial<'static>; 4] = [
    (
        "8: the constant 15",
        &[&[*b"PL\0\0\x0f\0\0\0", *b"AD\x01\0\0\0\0\0"]],
    ),
    (
        "8: the constant 16",
        &[&[*b"PL\0\0\x10\0\0\0", *b"AD\x01\0\0\0\0\0"]],
    ),
    (
        "8: the constant -15",
        &[&[*b"PL\0\0\xf1\0\0\0", *b"AD\x01\0\0\0\0\0"]],
    ),
    (
        "8: the constant -16",
        &[&[*b"PL\0\0\xf0\0\0\0", *b"AD\x01\0\0\0\0\0"]],
    ),
];

// A predicate and a goal over the two names.
const PREDICATE: Record = *b"P!\0\0\0\0\0\0";

const GOAL: Record = *b"E=\0\x01\0\0\0\0";

// How many predicates, goals and answers there may be.
const COUNTS: [Trial<'static>; 8] = [
    ("9: 16 predicates", &[&[A, B], &[PREDICATE; 16], &[ASK]]),
    ("9: 17 predicates", &[&[A, B], &[PREDICATE; 17], &[ASK]]),
    (
        "9: 8 predicates in an abstraction",
        &[&[A, B], &[PREDICATE; 8], &[ABSTRACT]],
    ),
    (
        "9: 9 predicates in an abstraction",
        &[&[A, B], &[PREDICATE; 9], &[ABSTRACT]],
    ),
    ("10: 8 goals", &[&[A, B], &[GOAL; 8], &[ASK]]),
    ("10: 9 goals", &[&[A, B], &[GOAL; 9], &[ASK]]),
    ("20: 256 answers", &[&[ASK; 256]]),
    ("20: 257 answers", &[&[ASK; 257]]),
];

// Letters that name nothing, and bytes that are not used.
const LETTERS: [Trial<'static>; 10] = [
    ("17: an unknown kind", &[&[*b"t\0\0\x01\0\0\0\0"]]),
    ("17: an unknown relation", &[&[*b"P>\0\0\0\0\0\0"]]),
    ("17: an unknown theory", &[&[*b"AX\0\0\0\0\0\0"]]),
    ("18: byte 6 of a term", &[&[*b"T\0\0\x01\0\0\x01\0"]]),
    ("18: byte 7 of a term", &[&[*b"T\0\0\x01\0\0\0\x01"]]),
    ("18: byte 5 of a predicate", &[&[*b"P=\0\0\0\x01\0\0"]]),
    ("18: byte 5 of a goal", &[&[*b"E=\0\0\0\x01\0\0"]]),
    (
        "18: byte 2 of a question over terms",
        &[&[*b"AU\x01\0\0\0\0\0"]],
    ),
    (
        "18: byte 3 of a question over differences",
        &[&[*b"AD\x01\x01\0\0\0\0"]],
    ),
    ("18: byte 7 of an abstraction", &[&[*b"WU\0\0\0\0\0\x01"]]),
];

// That a term is itself.
const SAME: Record = *b"P=\0\0\0\0\0\0";

// The terms of a statement, and the relations of each theory.
const STATEMENTS: [Trial<'static>; 8] = [
    ("6: the only term", &[&[A, SAME, ASK]]),
    ("6: no such term", &[&[A, *b"P=\0\x01\0\0\0\0", ASK]]),
    (
        "6: no such term in a goal",
        &[&[A, *b"E=\x01\0\0\0\0\0", ASK]],
    ),
    (
        "18: a constant with terms",
        &[&[A, *b"P=\0\0\x01\0\0\0", ASK]],
    ),
    ("19: at most over terms", &[&[A, *b"PL\0\0\0\0\0\0", ASK]]),
    ("19: below over terms", &[&[A, *b"E<\0\0\0\0\0\0", ASK]]),
    (
        "19: equal over differences",
        &[&[SAME, *b"AD\x01\0\0\0\0\0"]],
    ),
    (
        "19: different over differences",
        &[&[*b"E!\0\0\0\0\0\0", *b"AD\x01\0\0\0\0\0"]],
    ),
];

// A predicate with a term that is not there, and one with a variable that is not there and a constant out of range.
const NO_TERM: Record = *b"P=\0\x01\0\0\0\0";

const NO_VARIABLE: Record = *b"PL\0\x09\x10\0\0\0";

// Where two refusals are due, the first in the order of the checks.
const ORDERS: [Trial<'static>; 9] = [
    ("17 before 18", &[&[*b"AX\0\0\0\0\0\x01"]]),
    ("18 before 20", &[&[ASK; 256], &[*b"AU\x01\0\0\0\0\0"]]),
    ("20 before 5", &[&[ASK; 256], &[*b"AD\x09\0\0\0\0\0"]]),
    (
        "5 before 7",
        &[&[*b"PL\x09\0\0\0\0\0", *b"AD\x09\0\0\0\0\0"]],
    ),
    ("19 before 18 and 6", &[&[A, *b"PL\0\x01\x01\0\0\0", ASK]]),
    ("18 before 6", &[&[A, *b"P=\0\x01\x01\0\0\0", ASK]]),
    (
        "6 of the first before 19 of the second",
        &[&[A, NO_TERM, NO_VARIABLE, ASK]],
    ),
    ("7 before 8", &[&[NO_VARIABLE, *b"AD\x08\0\0\0\0\0"]]),
    ("6 before 9", &[&[A], &[NO_TERM; 9], &[ABSTRACT]]),
];

// Tries each trial of a table.
fn try_all(rt: &impl Print, trials: &[Trial<'_>]) -> io::Result<()> {
    for (name, parts) in trials {
        trial(rt, name, parts)?;
    }
    Ok(())
}

pub fn all(rt: &impl Print) -> io::Result<()> {
    try_all(rt, &TERMS)?;
    try_all(rt, &VARIABLES)?;
    try_all(rt, &CONSTANTS)?;
    try_all(rt, &COUNTS)?;
    try_all(rt, &LETTERS)?;
    try_all(rt, &STATEMENTS)?;
    try_all(rt, &ORDERS)
}
