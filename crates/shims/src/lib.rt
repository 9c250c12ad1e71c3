// For tests only, and no part of the product: the functions on vectors, halos and one plane, the prediction at whole pixels, and the factors
// of a macroblock, behind functions on numbers and bytes. shims_c gives those to C, where tests/oracle compares them with the Rust, and
// tests/rfc with the RFC's; rust_answers and finished_answers replay them. A call writes what the function returned, zeros where that
// refuses, and gives its number. It gives 255 and writes nothing where a length is not the one due or a code names no function. C says by number
// what it asks for: each such number is looked at once, and stands beside what it names.
// Every parameter is one that C hands over.
#![tactic(auto)]

pub mod bytes;
pub mod codes;
pub mod count;
pub mod filtering;
pub mod planes;
pub mod quantiser;
pub mod sums;
pub mod vectors;
