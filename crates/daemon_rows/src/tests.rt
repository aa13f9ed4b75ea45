mod commands;
mod trials;
