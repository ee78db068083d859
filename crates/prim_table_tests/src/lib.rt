//! That the face of `Prim` is that of tables written by hand, apart from its definition.
//!
//! A row is a declaration, a method, a fixity, an instance or an export, as `rows` writes it. A name of another unit,
//! module or space than the one expected is written as `?`. Types and kinds are written as `print_ty` and `print_kind` do.
#![tactic(auto)]

#[cfg(test)]
mod classes;
#[cfg(test)]
mod exported;
#[cfg(test)]
mod instances;
#[cfg(test)]
mod methods;
#[cfg(test)]
mod rows;
#[cfg(test)]
mod shown;
#[cfg(test)]
mod types;
