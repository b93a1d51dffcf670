//! A module for the clients, and one for all clients of a program.

mod servers;
mod turn;
