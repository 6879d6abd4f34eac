// What an examination has shown.
pub use history::verdict::Verdict;
