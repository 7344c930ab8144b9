// Runs the bench cases of RULES 13 and prints a line for each: letter, space, `same` or `differs`.
#![tactic(auto)]

mod fields; // fields.rt: the fields of the cases
mod compare; // compare.rt: what the calls give beside what they should
mod reading; // reading.rt: the cases that read
mod writing; // writing.rt: the cases that write

use std::io;

fn main(rt: HostRuntime) -> io::Result<()> {
    let cases = [
        ('a', reading::case_a()),
        ('b', reading::case_b()),
        ('c', reading::case_c()),
        ('d', reading::case_d() && writing::case_d()),
        ('e', writing::case_e()),
        ('f', writing::case_f()),
        ('g', reading::case_g()),
        ('h', reading::case_h()),
        ('i', reading::case_i() && writing::case_i()),
        ('j', reading::case_j() && writing::case_j()),
        ('k', reading::case_k() && writing::case_k()),
        ('l', reading::case_l()),
        ('m', reading::case_m() && writing::case_m()),
        ('n', reading::case_n()),
        ('o', reading::case_o()),
        ('p', reading::case_p() && writing::case_p()),
        ('q', writing::case_q()),
    ];
    for (letter, same) in cases {
        let word = if same { "same" } else { "differs" };
        println!(rt; "{letter} {word}")?;
    }
    Ok(())
}
