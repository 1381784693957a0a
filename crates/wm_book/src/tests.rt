//! Tests of books: two threads that open and close windows, and what a caller sees of its window.
mod books;
mod callers;
mod race;
mod sight;
