mod cases;
mod groups;
mod runs;
mod sessions;
mod surroundings;
