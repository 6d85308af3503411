//! Worked rows of `lfi_frame`: tables of headers, streams and faults, with the values of the format's description.

mod faults;
mod headers;
mod streams;
