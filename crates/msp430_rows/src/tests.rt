mod entries;
mod given;
mod results;
mod resuming;
mod stores;
