//! What no story of `ice_stories` says: each public type with its traits, calls with boxed preferences, and scripts whose input or
//! output fails.

mod calls;
mod faults;
mod playing;
mod profile;
mod scripts;
mod settings;
mod surface;
