// Generates the trace of a small table and prints its rows and its terminal.

#![tactic(auto)]

use expression::choices::{CABINET_NUMBER, Choices, RULE_1};
use expression::numbers;
use expression::sizes::Shape;
use expression::table::LentTraces;
use field::extension::Ext;
use field::modulus::BABYBEAR_NUMBER;
use logup_generation::generate_permutation;
use lookup::table::{LentLookups, LentTable};

// Words, separated by commas.
fn print_words(words: &[u32]) {
    for (i, &word) in words.iter().enumerate() {
        if 0 < i {
            io::write_all(1, b",");
        }
        print_word(word);
    }
}

fn print_word(n: u32) {
    io::print_decimal(1, u64::from(n));
}

fn print_terminal(e: Ext) {
    io::write_all(1, b"terminal=");
    print_words(&[e.c0, e.c1, e.c2, e.c3]);
    io::write_all(1, b"\n");
}

// A line for each row of a trace of one lookup.
fn print_trace(trace: &[u32], height: usize) {
    for r in 0..height {
        io::write_all(1, b"trace=");
        print_words(generate_permutation::row(trace, 1, height, r as u64));
        io::write_all(1, b"\n");
    }
}

// One row, 3; one lookup on the bus "mem" with the tuple (3), multiplicity 1; alpha 5, beta 0; in field 1, within the cabinet's limits, by tuple rule 1.
fn main() {
    let main = [3u32];
    let nodes = [1u32, 0, 0, 0, 1, 0];
    let lookups = [1u32, 3, 1, 0, 0, 1, 1, 0, 0];
    let names = [109u8, 101, 109];
    let tuples = [1u32];
    let multiplicities = [1u32];
    let elements = [0u32];
    let preprocessed = [0u32; 0];
    let public_values = [0u32; 0];
    let flags = [0u32; 0];
    let challenges = [5u32, 0, 0, 0, 0, 0, 0, 0];
    let mut trace = [0u32; 8];
    let shape = Shape {
        main_width: 1,
        height: 1,
        pre_width: 0,
        pre_height: 0,
    };
    let choices = Choices {
        field: BABYBEAR_NUMBER,
        profile: CABINET_NUMBER,
    };
    let answer = generate_permutation::generate(
        choices,
        RULE_1,
        &LentTable {
            traces: LentTraces {
                shape,
                main: &main,
                preprocessed: &preprocessed,
                public_values: &public_values,
            },
            nodes: &nodes,
            lookups: LentLookups {
                records: &lookups,
                names: &names,
                tuples: &tuples,
                multiplicities: &multiplicities,
                flags: &flags,
                elements: &elements,
            },
        },
        &challenges,
        &mut trace,
    );
    match answer {
        Ok(Some(t)) => {
            print_trace(&trace, 1);
            print_terminal(t.0);
        }
        Ok(None) => {
            io::write_all(1, b"terminal=none\n");
        }
        Err(f) => {
            io::write_all(1, b"refusal=");
            print_word(numbers::number(f));
            io::write_all(1, b"\n");
        }
    }
}
