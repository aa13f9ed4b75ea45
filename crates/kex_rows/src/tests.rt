mod gates;
mod machine;
mod nets;
mod seatings;
mod seats;
mod words;
