mod broken;
mod memory;
mod steps;
