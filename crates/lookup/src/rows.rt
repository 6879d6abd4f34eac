pub use set_file::rows::Rows;
