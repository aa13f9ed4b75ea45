mod plain_types;
mod script_files;
mod texts;
