mod breaks;
mod reading;
mod rows;
mod writing;
