//! Polynomials over the field of two elements, held as numbers, and their arithmetic modulo x^n + r.
//!
//! This crate holds the definitions (`specs/Polynomial.antt`, `specs/Inverse.antt`) and what is shown of
//! them (`specs/Laws.antt`); the code that computes them on machine words is the crate `words`.

#![tactic(auto)]

ghost use Rattle.polynomials.specs.Laws.{Arithmetic};

/// The product is the remainder of the carry-less product, the polynomials of a degree below n are a
/// commutative ring, and the inverse is found exactly where there is one: for every modulus.
pub fn arithmetic_stands()
    ensures arithmetic { Arithmetic }
{}
