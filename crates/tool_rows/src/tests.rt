mod files;
mod replays;
mod tools;
