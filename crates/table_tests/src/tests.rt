mod columns;
mod names;
mod orders;
mod printing;
mod tables;
