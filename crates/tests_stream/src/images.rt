//! Tests of builders, images and their files.

mod building;
mod devices;
mod faults;
mod files;
mod raw_pages;
mod rows;
