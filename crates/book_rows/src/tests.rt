mod clocks;
mod holders;
mod lingering;
mod plain_book;
